// Edges of the definitions, as one fact.
ghost use Rattle.ftpl.specs.Edges.{Edges};

/// Says only its promise: the edges hold.
pub fn edges_hold() -> bool
    ensures { Edges }
{
    true
}
