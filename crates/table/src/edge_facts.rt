// Edges of the steps, as one fact.
ghost use Rattle.table.specs.Edges.{Edges};

/// Says only its promise: the edges hold.
pub fn edges_hold() -> bool
    ensures { Edges }
{
    true
}
