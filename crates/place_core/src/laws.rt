//! Laws of the steps, as clauses of functions that do nothing.

ghost use Rattle.std.specs.Prelude.{◌≡◌, ℕ, ◌+◌, List, Option};
ghost use Rattle.map_types.specs.Creation.{IsShape};
ghost use Rattle.map_types.specs.declared.attr.Shape as shapes;
ghost use Rattle.place_words.specs.declared.step.Step as steps;
ghost use Rattle.place_words.specs.OpeningState.{opening};
ghost use Rattle.place_words.specs.Places.{Placed};
ghost use Rattle.place_words.specs.Ranks.{Ranked, AreWants, IsStuck};
ghost use Rattle.place_words.specs.State.{State};
ghost use Rattle.place_words.specs.Steps.{CoreStep, Leads};
ghost use Rattle.place_words.specs.Totals.{free_total, bucket_total, hand_total};
ghost use Rattle.place_words.specs.Wholeness.{EachInOnePlace};

/// One step keeps what is right of a state, whatever the state is: the places of the elements, and the ranks of the locks
/// that a CPU holds.
pub fn step_laws()
    ensures placed { (shape : shapes.Shape) (step : steps.Step) (before now : State) → IsShape shape
        → CoreStep shape before step now → Placed shape before → Placed shape now }
    ensures ranked { (shape : shapes.Shape) (step : steps.Step) (before now : State)
        → CoreStep shape before step now → Ranked shape before → Ranked shape now }
{}

/// What the places of the elements say: wherever they are right, each element stands where its owner and its home tell, once
/// and nowhere else, and those on free lists, in buckets and in hands add up to the map's elements. So it is in each core.
pub fn place_laws()
    ensures in_one_place { (shape : shapes.Shape) (s : State) → Placed shape s
        → EachInOnePlace shape s }
    ensures add_up { (shape : shapes.Shape) (s : State) → Placed shape s
        → free_total shape s + bucket_total shape s + hand_total shape s ≡ shape.elements }
{}

/// Every state that a list of steps leads to from the opening of a map has each element in its one place, and none is made
/// or lost: those on free lists, in buckets and in hands add up to the map's elements.
pub fn reached_laws()
    ensures placed { (shape : shapes.Shape) (list : List steps.Step) (s : State) → IsShape shape
        → Leads shape (opening shape) list s → Placed shape s }
    ensures ranked { (shape : shapes.Shape) (list : List steps.Step) (s : State)
        → Leads shape (opening shape) list s → Ranked shape s }
    ensures in_one_place { (shape : shapes.Shape) (list : List steps.Step) (s : State)
        → IsShape shape
        → Leads shape (opening shape) list s → EachInOnePlace shape s }
    ensures add_up { (shape : shapes.Shape) (list : List steps.Step) (s : State) → IsShape shape
        → Leads shape (opening shape) list s
        → free_total shape s + bucket_total shape s + hand_total shape s ≡ shape.elements }
{}

/// CPUs that want locks only above the ranks of all that they hold never wait in a circle.
pub fn wait_laws()
    ensures { (shape : shapes.Shape) (s : State) (wants : ℕ → Option ℕ) → AreWants shape s wants
        → ¬ IsStuck s wants }
{}
