// The form as a kind of message.
ghost use Rattle.std.specs.Prelude.{◌≡◌};
ghost use Rattle.messages.specs.Forms.{form_bytes, form_reading};
ghost use Rattle.messages.specs.FormsLemmas.{form_all_bytes, form_eight, form_only, form_reads};

use crate::form::{Cancellation, Form, Tariff};
use crate::message::Message;

impl Message for Form {
    ghost form = { form_bytes };

    ghost reading = { form_reading };

    ghost eight = { form_eight };

    ghost bytes = { form_all_bytes };

    ghost reads = { form_reads };

    ghost only = { form_only };

    fn read(bytes: &[u8; 8]) -> Option<Form> {
        if bytes[1] != 0 {
            return None;
        }
        let short = u16::from_le_bytes([bytes[2], bytes[3]]);
        let long = u32::from_le_bytes([bytes[4], bytes[5], bytes[6], bytes[7]]);
        match bytes[0] {
            1 => Some(Form::Tariff(Tariff::new(short, long)?)),
            2 => Some(Form::Cancellation(Cancellation {
                cents: short,
                hire: long,
            })),
            _ => None,
        }
    }

    fn to_bytes(&self) -> [u8; 8] {
        let (sort, short, long) = match self {
            Form::Tariff(t) => (1, t.table, t.day),
            Form::Cancellation(c) => (2, c.cents, c.hire),
        };
        let short = short.to_le_bytes();
        let long = long.to_le_bytes();
        [
            sort, 0, short[0], short[1], long[0], long[1], long[2], long[3],
        ]
    }
}
