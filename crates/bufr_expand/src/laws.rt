//! Laws of the definitions.

ghost use Rattle.std.specs.Prelude.{◌≡◌, ◌≤◌, ◌↔◌, ℕ, List, ◌∷◌, ◌++◌, Some};
ghost use Rattle.bufr_tables.specs.declared.element.Element.{Element};
ghost use Rattle.bufr_tables.specs.Entries.{Entries};
ghost use Rattle.bufr_expand.specs.declared.node.Node.{Node};
ghost use Rattle.bufr_expand.specs.declared.node.TemplateFault.{TemplateFault};
ghost use Rattle.bufr_expand.specs.declared.operators.Operators.{Operators};
ghost use Rattle.bufr_expand.specs.declared.operators.Spec.{Spec};
ghost use Rattle.bufr_expand.specs.declared.walk.WalkFault.TheVariants.{TooLarge, EffectiveRange};
ghost use Rattle.bufr_expand.specs.Limits.{most_items};
ghost use Rattle.bufr_expand.specs.OperatorsInForce.{effective, untouched};
ghost use Rattle.bufr_expand.specs.Effects.{Effective, AsInTable, IsInRange, CanBeAsked};
ghost use Rattle.bufr_expand.specs.Courses.{Course, stops, course};
ghost use Rattle.bufr_expand.specs.FirstFaults as first_faults;
ghost use Rattle.bufr_expand.specs.FirstFaults.{HasTreeOrFault, HasNotBoth, HasOneFault};
ghost use Rattle.bufr_expand.specs.FirstFaults.{HasNoTreeAt};
ghost use Rattle.bufr_expand.specs.Flat.{IsTreeOf, ExpandsExactly, ExpandsToTrees, HasOneTree};
ghost use Rattle.bufr_expand.specs.Flat.{HasEnoughLevels};
ghost use Rattle.bufr_expand.specs.Steady.{IsSteady, EachAsked};
ghost use Rattle.bufr_expand.specs.Templates.{BuildsExactly, RefusesExactly};
ghost use Rattle.bufr_expand.specs.Trees.{Tree, done};
ghost use Rattle.bufr_expand.specs.Unrolling.{NumberedField, After, Allows, Unrolls};
ghost use Rattle.bufr_expand.specs.NextFields.{wants, lacks, BeginsWithin, MeetsItems, PassesLimit};
ghost use Rattle.bufr_expand.specs.NextFields.{AsksAfter};

/// A list expands to the nodes of its tree, exactly if it has one within the limits. It has one
/// tree at most, and the definition never runs out of levels.
pub fn expansion_is_the_tree_of_a_list()
    ensures exactly { (tables : Entries) (list : List ℕ) (tree : Tree)
        → ExpandsExactly tables list tree }
    ensures trees { (tables : Entries) (list : List ℕ) (nodes : List Node)
        → ExpandsToTrees tables list nodes }
    ensures one { (tables : Entries) (list : List ℕ) (a b : Tree) → HasOneTree tables list a b }
    ensures levels { (tables : Entries) (list : List ℕ) (more : ℕ)
        → HasEnoughLevels tables list more }
{}

/// A list is refused exactly with its first fault. It has either a tree within the limits or one
/// first fault; X1 to X7 at its first descriptor leave it no tree, whatever the limits.
pub fn refusal_is_the_first_fault()
    ensures exactly { (tables : Entries) (list : List ℕ) (fault : TemplateFault)
        → first_faults.RefusesExactly tables list fault }
    ensures either { (tables : Entries) (list : List ℕ) → HasTreeOrFault tables list }
    ensures never_both { (tables : Entries) (list : List ℕ) (tree : Tree) (fault : TemplateFault)
        → HasNotBoth tables list tree fault }
    ensures one { (tables : Entries) (list : List ℕ) (f g : TemplateFault)
        → HasOneFault tables list f g }
    ensures no_case { (tables : Entries) (first : ℕ) (behind : List ℕ) (fault : TemplateFault)
        → HasNoTreeAt tables first behind fault }
{}

/// The template of a list is its tree within the limits; else the list is refused with its first
/// fault.
pub fn templates_are_trees()
    ensures built { (tables : Entries) (list : List ℕ) (tree : Tree)
        → BuildsExactly tables list tree }
    ensures refused { (tables : Entries) (list : List ℕ) (fault : TemplateFault)
        → RefusesExactly tables list fault }
{}

/// The spec of an element is the one that meets the equations of Table C and the limits.
pub fn specs_are_effective()
    ensures found { (fxy : ℕ) (row : Element) (operators : Operators) (spec : Spec)
        → effective fxy row operators ≡ Some spec → Effective fxy row operators spec }
    ensures only { (fxy : ℕ) (row : Element) (operators : Operators) (spec : Spec)
        → Effective fxy row operators spec → effective fxy row operators ≡ Some spec }
    ensures one { (fxy : ℕ) (row : Element) (operators : Operators) (spec other : Spec)
        → Effective fxy row operators spec → Effective fxy row operators other → spec ≡ other }
    ensures table_found { (row : Element) (spec : Spec) → untouched row ≡ Some spec
        → AsInTable row spec }
    ensures table_only { (row : Element) (spec : Spec) → AsInTable row spec
        → untouched row ≡ Some spec }
{}

/// The fields that a template asks for unroll its tree, within the limit of items. `unrolled`
/// assumes that `used` is within it: a template without nodes ends even above.
pub fn courses_are_unrollings()
    ensures unrolled { (tree : Tree) (used : ℕ) (fields : List NumberedField) (met : ℕ)
        → used ≤ most_items → Allows (course tree used) fields met → Unrolls tree used fields met }
    ensures allowed { (tree : Tree) (used : ℕ) (fields : List NumberedField) (met : ℕ)
        → Unrolls tree used fields met → Allows (course tree used) fields met }
    ensures full { (tree : Tree) (used : ℕ) → (tree ≡ done → ⊥) → most_items ≤ used
        → course tree used ≡ stops used TooLarge }
{}

/// After some fields a template asks for the next field of an unrolling, or refuses it for lack of
/// a spec. It is too large exactly if an item up to there is above the limit.
pub fn courses_begin_unrollings()
    ensures asked { (tree : Tree) (used : ℕ) (fields : List NumberedField) (met fxy : ℕ) (spec : Spec)
        → used ≤ most_items → AsksAfter (course tree used) fields met fxy spec
        ↔ BeginsWithin tree used fields (wants fxy spec) met }
    ensures lacking { (tree : Tree) (used : ℕ) (fields : List NumberedField) (met fxy : ℕ)
        → used ≤ most_items
        → After (course tree used) fields (stops met (EffectiveRange fxy))
        ↔ BeginsWithin tree used fields (lacks fxy) met }
    ensures too_large { (tree : Tree) (used : ℕ) (fields : List NumberedField) (later : Course)
        → used ≤ most_items
        → After (course tree used) fields later
        → (later ≡ stops most_items TooLarge) ↔ PassesLimit tree used fields }
    ensures goes_on { (tree : Tree) (used : ℕ) (fields : List NumberedField) (later : Course)
        → used ≤ most_items
        → After (course tree used) fields later → (items : ℕ) × MeetsItems tree fields items }
    ensures front { (tree : Tree) (used : ℕ) (fields others : List NumberedField) (field : NumberedField) (end : ℕ)
        → Unrolls tree used (fields ++ field ∷ others) end
        → (met : ℕ) × BeginsWithin tree used fields (wants field.fxy field.spec) met }
{}

/// Each field of a course is at least one more item, and only numbers of counts decide what
/// follows. Every spec is in range, and within all limits for the tree of a list.
pub fn courses_are_steady()
    ensures steady { (tree : Tree) (used : ℕ) → IsSteady used (course tree used) }
    ensures in_range { (tree : Tree) (used : ℕ) → EachAsked IsInRange (course tree used) }
    ensures within_limits { (tables : Entries) (list : List ℕ) (tree : Tree) (used : ℕ)
        → IsTreeOf tables list tree → EachAsked CanBeAsked (course tree used) }
{}
