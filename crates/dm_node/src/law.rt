//! What holds of every event of a machine.
ghost use Rattle.std.specs.Prelude.{◌≡◌, Some, true, ℕ};
ghost use Rattle.dm_link.specs.Lawful.{IsMachine};
ghost use Rattle.dm_link.specs.declared.Pid.{Pid};
ghost use Rattle.dm_message.specs.declared.Message.{Message};
ghost use Rattle.dm_onekernel.specs.declared.boot.Boot.{Boot};
ghost use Rattle.dm_onekernel.specs.Boot.{images_are_valid};
ghost use Rattle.dm_stream.specs.Packets.{Load};
ghost use Rattle.dm_kernel.specs.Lawful.{IsLawfulState};
ghost use Rattle.dm_node.specs.Acts.{arrives, asks_move, calls_off, tick, turn};
ghost use Rattle.dm_node.specs.Lawful.{ActsLawfully};
ghost use Rattle.dm_node.specs.May.{MayAct, MayArrive, MayAskMove, MayCallOff, MayTurn};
ghost use Rattle.dm_node.specs.Out.{Acted, Goes};
ghost use Rattle.dm_node.specs.State.{NodeState, here};

/// Each packet that a machine sends can be encoded, and goes from this machine to another.
pub fn events_send_lawfully()
    ensures turns { (b : Boot) (n : NodeState) (a : Acted) → images_are_valid b.images ≡ true → MayTurn b n → IsLawfulState n.kernel → turn b n ≡
        Some (Goes a) → ActsLawfully (here n) a }
    ensures asks { (n : NodeState) (p : Pid) (machine : ℕ) (a : Acted) → IsMachine machine → MayAskMove n → IsLawfulState n.kernel →
        asks_move n p machine ≡ Some (Goes a) → ActsLawfully (here n) a }
    ensures calls { (n : NodeState) (p : Pid) (a : Acted) → MayCallOff n p → IsLawfulState n.kernel → calls_off n p ≡ Some (Goes a) →
        ActsLawfully (here n) a }
    ensures ticks { (n : NodeState) → MayAct n → ActsLawfully (here n) (tick n) }
    ensures arrivals { (n : NodeState) (from : ℕ) (carried : Load Message) → MayArrive n from carried → ActsLawfully (here n) (arrives n from carried) }
{}
