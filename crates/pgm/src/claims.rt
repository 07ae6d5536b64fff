// Theorems, as functions with an empty body: each `ensures` is the statement.
ghost use Rattle.pgm.specs.Claims.{ReadsBack, Rewritten, PixelsLast};

// A written picture reads back to the same sides and bytes.
pub fn reads_back()
    ensures { ReadsBack }
{}

// A file rewritten twice equals the file rewritten once, for every file that is read.
pub fn rewritten_once()
    ensures { Rewritten }
{}

// Bytes after the pixels are not read.
pub fn pixels_last()
    ensures { PixelsLast }
{}
