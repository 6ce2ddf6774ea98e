// Settling: after a change, the task that ought to run is the one that runs. Proved over any ready queue.
ghost use Rattle.std.specs.Prelude.{◌≡◌, true};
ghost use Rattle.ready.specs.Settling.{best_runs, may_yield, settled};

use crate::queue::ReadyQueue;
use crate::task::ReadyTask;

// Where a ready task has a smaller number than the running one, the running one joins the queue; where none runs then, the best
// ready one does. So, as long as the running one may join, no ready task has a smaller number than the one that runs then.
pub fn settle<Q: ReadyQueue>(queue: &mut Q, running: Option<ReadyTask>) -> Option<ReadyTask>
    ensures answer { result ≡ (settled (Q.ReadyQueue.line queue.old) running).1 }
    ensures after { Q.ReadyQueue.line queue.new ≡ (settled (Q.ReadyQueue.line queue.old) running).0 }
    ensures best { may_yield (Q.ReadyQueue.line queue.old) running ≡ true → best_runs (Q.ReadyQueue.line queue.new) result ≡ true }
{
    preempt(queue, running)
}

// Among equals the running one goes on.
fn preempt<Q: ReadyQueue>(queue: &mut Q, running: Option<ReadyTask>) -> Option<ReadyTask>
    ensures answer { result ≡ (settled (Q.ReadyQueue.line queue.old) running).1 }
    ensures after { Q.ReadyQueue.line queue.new ≡ (settled (Q.ReadyQueue.line queue.old) running).0 }
{
    let Some(task) = running else {
        return queue.take_best();
    };
    let Some(best) = queue.best() else {
        return running;
    };
    if best < task.priority && queue.join(task) {
        return queue.take_best();
    }
    running
}
