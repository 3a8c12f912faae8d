ghost use Rattle.meaning.specs.PlainWorld.{plain};

use meaning::Engine;

// A world that meets the premises. Nothing of it runs; what is proved of a session holds in every world.
pub struct PlainWorld;

impl Engine for PlainWorld {
    ghost world = { plain };
}
