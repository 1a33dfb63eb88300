//! Why an event stops before its end.
ghost use Rattle.std.specs.Prelude.{◌≡◌};

use dm_memory::NoMemory;

/// Why an event stops before its end. Its machine is not to be used again then.
#[derive(Clone, Copy, Debug)]
pub enum Stop {
    /// No memory was left.
    NoMemory(NoMemory),
    /// A message was to be routed between two machines that count as many as they may.
    Worn { from: u8, to: u8 },
}

impl From<NoMemory> for Stop {
    ghost use Rattle.std.specs.Prelude.{◌≡◌};
    ghost use Rattle.dm_node.specs.declared.stop.Stop.TheVariants as stops;

    ghost from_gives = { λ e stop. stop ≡ stops.NoMemory e };

    fn from(e: NoMemory) -> Stop
        ensures { result ≡ Stop.NoMemory e }
    {
        Stop::NoMemory(e)
    }
}
