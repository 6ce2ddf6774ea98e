// The table of task records. A number that is not below its size is no task: its priority is 0, and nothing changes there.
#![tactic(auto, using(std::proofs::lemmas::Grind::common_steps, fixed::proofs::FrontLaws::writing))]

ghost use Rattle.std.specs.Prelude.{◌≡◌, length, min, replicate, slice_index_or, slice_set};
ghost use Rattle.plain.specs.Lookups.{no_task};
ghost use Rattle.records.specs.Records.{started, task_changed, tasks_of, with_priority, with_tray_item};

use fixed::FixedVec;
use plain::records::{TaskRecord, TrayItem};

#[derive(Clone, Copy)]
pub struct Tasks {
    records: FixedVec<TaskRecord, MOST>,
}

const MOST: usize = 64;

impl Tasks {
    // So many records of absent tasks, at most 64.
    pub fn new(size: u8) -> Tasks
        ensures { tasks_of result ≡ replicate (min size 64) no_task }
    {
        Tasks {
            records: FixedVec::filled(
                usize::from(size),
                TaskRecord {
                    priority: 0,
                    tray: None,
                },
            ),
        }
    }

    pub fn size(&self) -> u8
        ensures { result ≡ length (tasks_of self.now) }
    {
        self.records.len() as u8
    }

    // The priority that the task has.
    pub fn priority(&self, task: u8) -> u8
        ensures { result ≡ (slice_index_or (tasks_of self.now) task no_task).priority }
    {
        self.records
            .get(usize::from(task))
            .map_or(0, |record| record.priority)
    }

    // The item in the task's tray, if any.
    pub fn tray(&self, task: u8) -> Option<TrayItem>
        ensures { result ≡ (slice_index_or (tasks_of self.now) task no_task).tray }
    {
        self.records.get(usize::from(task))?.tray
    }

    // Gives the task a priority and an empty tray. The task is the place and the priority what is written there, so they are no `ReadyTask`.
    pub fn start(&mut self, task: u8, priority: u8)
        ensures { tasks_of self.new ≡ slice_set (tasks_of self.old) task (started priority) }
    {
        self.records.set(
            usize::from(task),
            TaskRecord {
                priority,
                tray: None,
            },
        );
    }

    // Gives the task another priority: the place, and what is written there.
    pub fn set_priority(&mut self, task: u8, priority: u8)
        ensures { tasks_of self.new ≡ task_changed (with_priority priority) task (tasks_of self.old) }
    {
        if let Some(record) = self.records.get_mut(usize::from(task)) {
            record.priority = priority;
        }
    }

    // Puts an item into the task's tray. This and `start` are one call of the list each, on a record of their own.
    pub fn note(&mut self, task: u8, item: TrayItem)
        ensures { tasks_of self.new ≡ task_changed (with_tray_item item) task (tasks_of self.old) }
    {
        if let Some(taker) = self.records.get_mut(usize::from(task)) {
            taker.tray = Some(item);
        }
    }
}
