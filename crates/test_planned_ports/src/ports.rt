//! The ports of two tasks, which are taken out of their list, and put back.

ghost use Rattle.std.specs.Prelude.{◌≡◌, All, IfSome};

use flash_die::Nand;
use planned_ports::{SharedPlannedDie, TaskPort};

/// The last port of the list, if there is one.
pub(crate) fn take_last<N: Nand>(
    die: &SharedPlannedDie<N>,
    ports: &mut Vec<TaskPort<N>>,
) -> Option<TaskPort<N>>
    requires { All (λ port. port.lock ≡ die.now) ports.old.items }
    ensures own { IfSome result (λ port. port.lock ≡ die.now) }
    ensures rest { All (λ port. port.lock ≡ die.now) ports.new.items }
{
    let _ = die;
    ports.pop()
}

/// Puts a port to the end of the list, where there is memory for it.
pub(crate) fn put_last<N: Nand>(
    die: &SharedPlannedDie<N>,
    ports: &mut Vec<TaskPort<N>>,
    port: TaskPort<N>,
)
    requires ports { All (λ port. port.lock ≡ die.now) ports.old.items }
    requires own { port.lock ≡ die.now }
    ensures { All (λ port. port.lock ≡ die.now) ports.new.items }
{
    let _ = die;
    let _ = ports.push(port).is_ok();
}
