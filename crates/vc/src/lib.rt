// What is to be shown of a program, and that it suffices.
#![tactic(auto)]

ghost use Rattle.vc.specs.Theorem.{DependsOnNamed, LiteralsAgree, ShownHolds};
ghost use Rattle.vc.specs.Texts.{ReadAs};
ghost use Rattle.vc.specs.Worked.{Worked};

// What is shown holds.
pub fn shown_holds() -> u8
    ensures { ShownHolds }
{
    0
}

// Worked texts: the sound program that each reads as.
pub fn worked_texts_read() -> u8
    ensures { ReadAs }
{
    0
}

// Worked texts: how many conditions each has, and what breaks them.
pub fn worked_texts() -> u8
    ensures { Worked }
{
    0
}

// A condition hangs only on the unknowns that it names.
pub fn depends_on_named() -> u8
    ensures { DependsOnNamed }
{
    0
}

// A written number that is too large may be reduced to the width in its term: the same numbers break the same conditions.
pub fn literals_agree() -> u8
    ensures { LiteralsAgree }
{
    0
}
