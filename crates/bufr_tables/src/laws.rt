//! Laws of descriptors and of table files.

ghost use Rattle.std.specs.Prelude.{◌≡◌, ◌↔◌, ℕ, List, Some, Ok, Err};
ghost use Rattle.bufr_tables.specs.declared.element.Element.{Element};
ghost use Rattle.bufr_tables.specs.declared.table_faults.TableFault.{TableFault};
ghost use Rattle.bufr_tables.specs.Descriptors.{IsDescriptor, of_text, six_digits};
ghost use Rattle.bufr_tables.specs.Sheets.{AreElementRows, AreSequenceRows};
ghost use Rattle.bufr_tables.specs.Sheets.{IsFirstElementFault, IsFirstSequenceFault};
ghost use Rattle.bufr_tables.specs.TableFiles.{records_of, table_b, table_d};

/// A text is read as a descriptor exactly if the descriptor prints it.
pub fn descriptor_texts()
    ensures { (text : List ℕ) (d : ℕ)
        → ((of_text text ≡ Some d) ↔ (IsDescriptor d × (text ≡ six_digits d))) }
{}

/// A file is read as Table B exactly if these elements are its rows.
pub fn element_files()
    ensures { (text : List ℕ) (elements : List (ℕ × Element))
        → ((table_b text ≡ Ok elements) ↔ AreElementRows (records_of text) elements) }
{}

/// A file is refused as Table B exactly with its first fault.
pub fn element_faults()
    ensures { (text : List ℕ) (fault : TableFault)
        → ((table_b text ≡ Err fault) ↔ IsFirstElementFault (records_of text) fault) }
{}

/// A file is read as Table D exactly if these sequences are its rows.
pub fn sequence_files()
    ensures { (text : List ℕ) (sequences : List (ℕ × List ℕ))
        → ((table_d text ≡ Ok sequences) ↔ AreSequenceRows (records_of text) sequences) }
{}

/// A file is refused as Table D exactly with its first fault.
pub fn sequence_faults()
    ensures { (text : List ℕ) (fault : TableFault)
        → ((table_d text ≡ Err fault) ↔ IsFirstSequenceFault (records_of text) fault) }
{}
