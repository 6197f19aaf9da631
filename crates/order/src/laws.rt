// Laws of orders and of linked modules.

ghost use Rattle.reduction.specs.Hosting.{Names};
ghost use Rattle.std.specs.Prelude.{◌≡◌, ◌≢◌, ℕ};
ghost use Rattle.order.specs.ImportTypes.{import_types};
ghost use Rattle.valid.specs.Valid.{ValidModule};
ghost use Rattle.order.specs.Slices.{SlicesMakeHeadway};
ghost use Rattle.order.specs.Stopping.{StoppedIsComputed};
ghost use Rattle.order.specs.Uv.Numbers.{AreNumbers};
ghost use Rattle.order.specs.Work.{WorkOrder, WorkEnd, NoMemory, Works, Computes, IsEndOf, IsShortEnd};

use imports::Linked;
use imports::laws::names_are_apart;

/// The types of a linked module's imports are those of the functions that it imports.
pub fn imports_are_named(linked: &Linked)
    ensures { Names linked.now.contents (import_types linked.now.contents) }
{
    // by its contract the module is linked
    let _valid = linked.valid();
}

/// What one thread computes from an order has at most `MAX_BYTES` bytes.
pub fn ends_are_short()
    ensures { (o : WorkOrder) (end : WorkEnd) → ∥ IsEndOf o end ∥₁ → IsShortEnd end }
{}

/// From an order whose module is valid one thread computes one end at most: what the order's host answers is a function
/// of what it is asked, and a new instance, the function that is imported under a number and the one that is exported
/// under a name are one each.
pub fn one_end()
    ensures { (o : WorkOrder) (end other : WorkEnd) → ValidModule o.loaded.contents → Works o end → Works o other → end ≡ other }
{
    names_are_apart();
}

/// What it uses for that is one number of units, however its run is cut into slices.
pub fn one_use()
    ensures { (o : WorkOrder) (end other : WorkEnd) (used more : ℕ) → ValidModule o.loaded.contents → Computes o end used → Computes o other more → used ≡ more }
{
    names_are_apart();
}

/// Two replies to one order, each from an instance of its own, hold one end, unless there was no memory for one of them.
pub fn replies_agree()
    ensures { (o : WorkOrder) (end other : WorkEnd) → ∥ IsEndOf o end ∥₁ → ∥ IsEndOf o other ∥₁ → end ≢ NoMemory → other ≢ NoMemory → end ≡ other }
{}

/// Where the trail of a run says that it stopped, there the run stopped that computes the order's end: one run has both.
pub fn stopped_is_computed()
    ensures { StoppedIsComputed }
{}

/// A slice that leaves an order in progress uses at least one in 1,025 of its units, however many bytes it copies.
pub fn slices_make_headway()
    ensures { SlicesMakeHeadway }
{}

/// The numbers that a guest is answered are those of docs/UV.md.
pub fn answers_are_numbers()
    ensures { AreNumbers }
{}
