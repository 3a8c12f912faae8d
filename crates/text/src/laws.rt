// The laws of texts. Each function's contract states one, and its body does nothing.
ghost use Rattle.text.specs.Laws.{DetermineEachOther, JoinsAsUnits};

// Stored form and units determine each other.
pub fn stored_form_and_units_determine_each_other()
    ensures { DetermineEachOther }
{}

// Joining stored texts is joining their units.
pub fn joining_stored_texts_joins_units()
    ensures { JoinsAsUnits }
{}
