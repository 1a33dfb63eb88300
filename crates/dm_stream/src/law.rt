//! What holds of a stream after each event, and so over every schedule.
ghost use Rattle.std.specs.Prelude.{List, Some, ◌<◌, ◌≡◌, ◌^◌, ℕ};
ghost use Rattle.dm_stream.specs.Order.{IsInOrder, IsUnderWayOrThere, MayCome, StreamStands};
ghost use Rattle.dm_stream.specs.Rest.{IsAllDelivered, IsAllThere, IsAtRest};
ghost use Rattle.dm_stream.specs.Packets.{Load, load_at};
ghost use Rattle.dm_stream.specs.Stream.{Event, Stream, happens, run, start};

/// One step. The relation of a pair's sender, receiver, packets and their marks stands where nothing has happened, and
/// where it stands it stands after one more event. What was sent stays sent.
pub fn one_step<M>()
    ensures start { (numbers : ℕ) → numbers < 2 ^ 32 → StreamStands (start {M = M} numbers) }
    ensures step { (w : Stream M) (e : Event M) → StreamStands w → StreamStands (happens w e) }
    ensures out_stays { (w : Stream M) (e : Event M) (k : ℕ) (l : Load M) → load_at w.out k ≡ Some l → load_at (happens w e).out k ≡ Some l }
    ensures back_stays { (w : Stream M) (e : Event M) (k : ℕ) (l : Load M) → load_at w.back k ≡ Some l → load_at (happens w e).back k ≡ Some l }
{}

/// What follows where the relation stands: the conditions of `arrive` and `acked` hold for all that was ever sent; each
/// number that has gone out is still under way, or was taken or kept; where every packet was delivered nothing is under
/// way; and once nothing is under way, all that was given is taken and acknowledged, with no message sent again.
pub fn while_it_stands<M>()
    ensures may_come { (w : Stream M) → StreamStands w → MayCome w }
    ensures under_way { (w : Stream M) (n : ℕ) → StreamStands w → n < w.sender.gone → IsUnderWayOrThere w n }
    ensures delivered { (w : Stream M) → StreamStands w → IsAllDelivered w → IsAtRest w }
    ensures at_rest { (w : Stream M) → StreamStands w → IsAtRest w → IsAllThere w }
{}

/// Whatever the network loses, repeats or reorders: what was taken is the beginning of what was given, at most 8
/// messages are outstanding, and the conditions of `arrive` and `acked` hold for all that was ever sent. Once nothing
/// is under way any more, all that was given is taken and acknowledged, with no message sent again.
pub fn any_schedule<M>()
    ensures in_order { (numbers : ℕ) (events : List (Event M)) → numbers < 2 ^ 32 → IsInOrder (run events (start numbers)) }
    ensures may_come { (numbers : ℕ) (events : List (Event M)) → numbers < 2 ^ 32 → MayCome (run events (start numbers)) }
    ensures at_rest { (numbers : ℕ) (events : List (Event M)) → numbers < 2 ^ 32 → IsAtRest (run events (start numbers)) →
        IsAllThere (run events (start numbers)) }
{}
