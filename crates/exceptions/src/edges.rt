// What the definitions come to at the edges of a small store.
ghost use Rattle.exceptions.specs.Edges.{Edges};

// Where areas stand, how many exceptions small devices hold and which runs go first, with chunks of one sector.
pub fn edges_hold()
    ensures { Edges }
{}
