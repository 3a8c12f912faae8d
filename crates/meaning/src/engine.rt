ghost use Rattle.meaning.specs.World.{World};

// A world in which expressions are run. Nothing of it is code.
pub trait Engine {
    ghost world: { World };
}
