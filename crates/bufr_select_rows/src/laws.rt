//! Laws: rows show what listings show.

ghost use Rattle.bufr_select_rows.specs.ListedCells.{FactsAreListed, LinesHaveDescriptors};
ghost use Rattle.bufr_select_rows.specs.ListedCells.{LinesDetermineRows, ValuesAreListed};
ghost use Rattle.bufr_select_rows.specs.Rows.{Origin};

/// A cell shows the value of a field as its line does.
pub fn values_are_listed()
    ensures { ValuesAreListed }
{}

/// The lines of fields with a descriptor are those that begin with its digits.
pub fn lines_have_descriptors()
    ensures { LinesHaveDescriptors }
{}

/// Subsets with the same lines have the same rows.
pub fn lines_determine_rows()
    ensures { LinesDetermineRows }
{}

/// The facts of section 1 are the numbers in its two lines.
pub fn facts_are_listed()
    ensures { (o : Origin) → FactsAreListed o }
{}
