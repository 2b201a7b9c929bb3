// What stays where variables are left out, as promises to a reader.
ghost use Rattle.c_trim.specs.Laws.{ReadsStay, MeaningStays, TurnsStay, WholeStays, RulesStay};

/// A variable that stays reads as before.
pub fn reads_law()
    ensures { ReadsStay }
{}

/// What the program means stays.
pub fn meaning_law()
    ensures { MeaningStays }
{}

/// So does what is observed where a host calls one of its functions again and again behind the first statements of main.
pub fn turns_law()
    ensures { TurnsStay }
{}

/// The bounds of the subset are kept.
pub fn whole_law()
    ensures { WholeStays }
{}

/// The static rules are kept.
pub fn rules_law()
    ensures { RulesStay }
{}
