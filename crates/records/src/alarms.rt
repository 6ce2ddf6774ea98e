// The running alarms, in the order in which they were set: at most 256, as many as there are blocks.
#![tactic(auto, using(std::proofs::lemmas::Grind::common_steps, crate::proofs::PlaceLaws::places))]

ghost use Rattle.std.specs.Prelude.{◌≡◌, []};
ghost use Rattle.plain.specs.Effects.{with_alarm, without_alarm};
ghost use Rattle.plain.specs.Lookups.{alarm_in};
ghost use Rattle.records.specs.AlarmLists.{alarm_place, alarms_of};

use fixed::FixedVec;
use plain::records::AlarmRecord;

#[derive(Clone, Copy)]
pub struct Alarms {
    alarms: FixedVec<AlarmRecord, SIZE>,
}

const SIZE: usize = 256;

impl Alarms {
    // No alarm runs.
    pub fn new() -> Alarms
        ensures { alarms_of result ≡ [] }
    {
        Alarms {
            alarms: FixedVec::new(AlarmRecord {
                block: 0,
                exchange: 0,
                ticks: 0,
            }),
        }
    }

    // The running alarm of the block, if any.
    pub fn find(&self, block: u8) -> Option<AlarmRecord>
        ensures { result ≡ alarm_in block (alarms_of self.now) }
    {
        let at = self.place(block)?;
        self.alarms.get(at).copied()
    }

    // Sets an alarm running, behind the others. Where 256 run, nothing changes.
    pub fn add(&mut self, alarm: AlarmRecord)
        ensures { alarms_of self.new ≡ with_alarm alarm (alarms_of self.old) }
    {
        self.alarms.push(alarm);
    }

    // Removes the block's alarm; the others stay in their order. The list does it; this looks the place up by a key of its own.
    pub fn remove(&mut self, block: u8)
        ensures { alarms_of self.new ≡ without_alarm block (alarms_of self.old) }
    {
        if let Some(at) = self.place(block) {
            self.alarms.remove(at);
        }
    }

    // Where the block's alarm stands, if it has one.
    fn place(&self, block: u8) -> Option<usize>
        ensures { result ≡ alarm_place block (alarms_of self.now) }
    {
        self.alarms
            .as_slice()
            .iter()
            .position(|alarm| block == alarm.block)
    }
}
