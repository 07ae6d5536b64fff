// Theorems, as functions with an empty body: each `ensures` is the statement.
ghost use Rattle.traylist_text.specs.Claims.{ReadEnough};

// What the tray list reads of an input has the text of the whole input.
pub fn read_enough()
    ensures { ReadEnough }
{}
