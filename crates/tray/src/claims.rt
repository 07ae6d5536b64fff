// Theorems, as functions with an empty body: each `ensures` is the statement.
ghost use Rattle.tray.specs.Claims.{LettersApart, ReadsWhole};

// No accepted record begins with the letters P5.
pub fn letters_apart()
    ensures { LettersApart }
{}

// Nothing past the pixels of an accepted input is read.
pub fn reads_whole()
    ensures { ReadsWhole }
{}
