//! Laws of the turns of locks, as clauses of functions that do nothing.

ghost use Rattle.std.specs.Prelude.{◌≡◌, ℕ, ◌+◌, ◌<◌, ◌≤◌, ◌++◌, All, List, Option, IsTrue, IsFalse};
ghost use Rattle.map_types.specs.Creation.{IsShape};
ghost use Rattle.map_types.specs.Kind.{is_lru};
ghost use Rattle.map_types.specs.declared.attr.Shape as shapes;
ghost use Rattle.map_types.specs.declared.call.Call as requests;
ghost use Rattle.map_types.specs.declared.call.Verb.TheVariants as verbs;
ghost use Rattle.map_types.specs.declared.kind.DomainId as locks;
ghost use Rattle.map_types.specs.declared.kind.Side as sides;
ghost use Rattle.map_types.specs.declared.reply.Reply as replies;
ghost use Rattle.place_words.specs.declared.history.Entry as entries;
ghost use Rattle.place_words.specs.declared.history.Part as parts;
ghost use Rattle.place_words.specs.AtRest.{IsStart};
ghost use Rattle.place_words.specs.Counts.{IsWithinShared, IsWithinOwn};
ghost use Rattle.place_words.specs.Cursors.{HasCursorWithin};
ghost use Rattle.place_words.specs.Histories.{Content, Allows, content_after};
ghost use Rattle.place_words.specs.Logs.{State, new_state, run};
ghost use Rattle.place_words.specs.Moves.{elements_in, brought, taken, KeepsElements};
ghost use Rattle.place_words.specs.Phases.{added, GetsFrom};
ghost use Rattle.place_words.specs.RowMoves.{IsOnce, KeepsRows};
ghost use Rattle.map_types.specs.ElementLists.{times};
ghost use Rattle.place_words.specs.SerialOrder.{FindsNoneHeld, AreDone};
ghost use Rattle.place_words.specs.Tickets.{AscendIn, tickets_of};
ghost use Rattle.place_words.specs.Traces.{IsTrace};
ghost use Rattle.place_words.specs.Turns.{TurnAt, turns_of, AreLegalAt};

/// What an update of a map that evicts does at most, whatever the other CPUs do between its turns: where the CPUs share lists
/// and where each has its own. Its turns have to stand in histories that replay by the rules.
pub fn bound_laws()
    ensures shared { (shape : shapes.Shape) (cpu : ℕ) (spare : Option ℕ) (side : sides.Side)
        (flags : ℕ) (key value : List ℕ)
        (turns : List TurnAt) (reply : replies.Reply) → IsTrue (is_lru shape.kind)
        → IsTrue shape.common → cpu < shape.cpus
        → IsTrace shape cpu spare (verbs.Update side flags key value) turns reply
        → AreLegalAt shape cpu turns
        → IsWithinShared shape.cpus (turns_of turns) }
    ensures own { (shape : shapes.Shape) (cpu : ℕ) (spare : Option ℕ) (side : sides.Side)
        (flags : ℕ) (key value : List ℕ)
        (turns : List TurnAt) (reply : replies.Reply) → IsTrue (is_lru shape.kind)
        → IsFalse shape.common
        → IsTrace shape cpu spare (verbs.Update side flags key value) turns reply
        → AreLegalAt shape cpu turns
        → IsWithinOwn (turns_of turns) }
{}

/// What each turn keeps of what lies under its lock, where each element lies there once at most: no element is lost and none
/// comes from nowhere, and every row stays with its hash but for those that the turn makes vanish. Each element lies there
/// once at most after it too, where none is brought that was there and isn't taken. And the rotation cursor of a list set stays
/// on an inactive element, or at the mark.
pub fn keep_laws()
    ensures elements { (shape : shapes.Shape) (cpu : ℕ) (part : parts.Part) (content : Content)
        → Allows shape cpu part content → IsOnce content → KeepsElements shape cpu part content }
    ensures rows { (shape : shapes.Shape) (cpu : ℕ) (part : parts.Part) (content : Content)
        → Allows shape cpu part content → IsOnce content → KeepsRows shape cpu part content }
    ensures once { (shape : shapes.Shape) (cpu : ℕ) (part : parts.Part) (content : Content)
        → Allows shape cpu part content → IsOnce content
        → ((e : ℕ) → times e (elements_in content) + times e (brought part)
        ≤ 1 + times e (taken part))
        → IsOnce (content_after shape cpu part content) }
    ensures cursor { (shape : shapes.Shape) (cpu : ℕ) (part : parts.Part) (content : Content)
        → HasCursorWithin content → HasCursorWithin (content_after shape cpu part content) }
{}

/// What holds of every run of calls in serial order, of a map of any kind that can be created, next key and batches included. It
/// may start wherever no call is under way (`IsStart`), as with a new map, and leaves the map so. Each call does what the rules
/// say: its turns are a trace of it with its reply, and each may be made at its place, an eviction where the element is in the
/// bucket of its stored hash. No reply is ENOMEM, and no probe finds its element in a CPU's hand, since on a map that evicts no
/// element is in one between calls. The turns stand behind those that were made before, and on each lock their tickets ascend,
/// from the next ticket before the run to below the next one after it. The last two ask for no such start.
pub fn serial_laws()
    ensures start { (shape : shapes.Shape) → IsShape shape → IsStart shape (new_state shape) }
    ensures done { (shape : shapes.Shape) (number : ℕ) (calls : List requests.Call) (state : State)
        → IsShape shape → All (λ (call : requests.Call). call.cpu < shape.cpus) calls
        → IsStart shape state
        → AreDone shape number calls state × IsStart shape (run shape number calls state) }
    ensures gets { (shape : shapes.Shape) (number : ℕ) (calls : List requests.Call) (state : State)
        → IsShape shape → All (λ (call : requests.Call). call.cpu < shape.cpus) calls
        → IsStart shape state → GetsFrom shape number calls state }
    ensures removes { (shape : shapes.Shape) (number : ℕ) (calls : List requests.Call)
        (state : State) (lock : locks.DomainId)
        → All (λ (entry : entries.Entry). FindsNoneHeld entry.part)
        (added shape number calls state lock) }
    ensures adds { (shape : shapes.Shape) (number : ℕ) (calls : List requests.Call)
        (state : State) (lock : locks.DomainId)
        → ((run shape number calls state).logs lock
        ≡ state.logs lock ++ added shape number calls state lock)
        × AscendIn state.next_ticket (tickets_of (added shape number calls state lock))
        (run shape number calls state).next_ticket }
{}
