// Theorems on labels, each a function with an empty body, so that the gate counts it.
ghost use Rattle.labels.specs.Claims.{LabelsCount, PushedOnce};

// Two ink cells share a label where they are linked, and only there; labels count from 1 by first
// cell in row order; 0 is no ink. Of every picture.
pub fn labels_count()
    ensures { LabelsCount }
{}

// The labelling of a picture pushes each cell no more than once.
pub fn pushed_once()
    ensures { PushedOnce }
{}
