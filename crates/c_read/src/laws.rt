// What holds of all texts and programs.

ghost use Rattle.c_read.specs.Laws.{OneProgram, SpellingIsRead, OneAccepted, OneBlamed, NotBoth, NamesStandThere, NamesRise};

/// No two programs within the bounds share a spelling.
pub fn one_program()
    ensures { OneProgram }
{}

/// For the spelling of a program within the bounds that keeps the static rules, the program is due.
pub fn spelling_is_read()
    ensures { SpellingIsRead }
{}

/// For a text a program is due or a byte is blamed, not both, and no other program or byte.
pub fn one_answer()
    ensures program { OneAccepted }
    ensures byte { OneBlamed }
    ensures either { NotBoth }
{}

/// At the byte of each event in a program's text begins the event's name; and these bytes rise, so that the first of some events has
/// the least byte.
pub fn names_stand()
    ensures there { NamesStandThere }
    ensures rise { NamesRise }
{}
