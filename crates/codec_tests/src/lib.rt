// Examples of the codec as tests: messages and names at their edges, batches read, refused, written and written back.
#![tactic(auto)]

#[cfg(test)]
mod tests {
    use batches::reader::read_batch;
    use batches::refused::BatchRefusal;
    use batches::writer::write_batch;
    use calls::call::Call;
    use calls::code::{CallCode, UnknownCode};
    use calls::record::CallRecord;
    use calls::refusal::{Refusal, RowFault};
    use messages::dock::DockMessage;
    use messages::form::Form;
    use messages::message::Message;
    use messages::name::is_service_name;
    use std::test::Fail;

    const NO_TEXT: [u8; 8] = [0; 8];

    // A Post at exchange 2 of the return of bicycle 300 at a dock.
    fn post(dock: u8, high: u8) -> CallRecord {
        CallRecord {
            code: u8::from(CallCode::Post),
            n1: 2,
            n2: 0,
            n3: 0,
            name: NO_TEXT,
            message: [2, 0, dock, high, 44, 1, 0, 0],
        }
    }

    fn tick() -> CallRecord {
        CallRecord {
            code: u8::from(CallCode::Tick),
            n1: 0,
            n2: 0,
            n3: 0,
            name: NO_TEXT,
            message: NO_TEXT,
        }
    }

    // The number of a refusal, by which operators know it, and its row where one row is at fault. `judged` and `written` call one function each.
    type Told = (u8, Option<u16>);

    fn told(refusal: BatchRefusal) -> Told {
        (u8::from(Refusal::from(refusal)), refusal.row())
    }

    fn judged<M: Message>(batch: &[u8]) -> Result<(), Told> {
        read_batch::<M>(batch).map(|_| ()).map_err(told)
    }

    fn written<M: Message>(records: &[CallRecord], out: &mut [u8]) -> Result<(), Told> {
        write_batch::<M>(records, out).map(|_| ()).map_err(told)
    }

    #[test]
    fn docks_at_their_edges(rt: HostRuntime) {
        assert!(rt; DockMessage::read(&[2, 0, 244, 1, 44, 1, 0, 0]).is_some());
        assert!(rt; DockMessage::read(&[2, 0, 245, 1, 44, 1, 0, 0]).is_none());
        assert!(rt; DockMessage::read(&[1, 0, 0, 0, 0, 0, 0, 0]).is_none());
        assert!(rt; DockMessage::read(&[5, 0, 7, 0, 0, 0, 0, 0]).is_none());
        assert!(rt; DockMessage::read(&NO_TEXT).is_none());
    }

    #[test]
    fn forms_at_their_edges(rt: HostRuntime) {
        assert!(rt; Form::read(&[1, 0, 15, 39, 0, 0, 0, 0]).is_some());
        assert!(rt; Form::read(&[1, 0, 16, 39, 0, 0, 0, 0]).is_none());
        assert!(rt; Form::read(&[1, 0, 0, 0, 0, 0, 0, 0]).is_none());
        assert!(rt; Form::read(&[2, 0, 0, 0, 0, 0, 0, 0]).is_some());
        assert!(rt; Form::read(&[2, 1, 0, 0, 0, 0, 0, 0]).is_none());
    }

    #[test]
    fn a_message_is_written_as_it_was_read(rt: HostRuntime) -> Result<(), Fail> {
        let bytes = [3, 0, 1, 0, 255, 255, 255, 255];
        let message = DockMessage::read(&bytes).ok_or("not read")?;
        assert_eq!(rt; message.to_bytes(), bytes);
        Ok(())
    }

    #[test]
    fn names(rt: HostRuntime) {
        assert!(rt; is_service_name(b"BILLING "));
        assert!(rt; is_service_name(b"A2345678"));
        assert!(rt; !is_service_name(b"BILL ING"));
        assert!(rt; !is_service_name(b"9BILLING"));
        assert!(rt; !is_service_name(b"billing "));
        assert!(rt; !is_service_name(b"        "));
    }

    #[test]
    fn codes_and_their_numbers(rt: HostRuntime) {
        assert_eq!(rt; CallCode::try_from(6), Ok(CallCode::Post));
        assert_eq!(rt; u8::from(CallCode::Tick), 7);
        assert_eq!(rt; CallCode::try_from(0), Err(UnknownCode(0)));
        assert_eq!(rt; CallCode::try_from(19), Err(UnknownCode(19)));
    }

    #[test]
    fn refusals_are_printed(rt: HostRuntime) -> Result<(), Fail> {
        let shape = BatchRefusal::Shape.to_string(rt.alloc())?;
        assert_eq!(rt; shape.as_str(), "the batch does not have its shape");
        let row = BatchRefusal::Row {
            row: 7,
            fault: RowFault::BadName,
        }
        .to_string(rt.alloc())?;
        assert_eq!(rt; row.as_str(), "row 7: the name is not a service name");
        let code = UnknownCode(19).to_string(rt.alloc())?;
        assert_eq!(rt; code.as_str(), "19 is no call's code");
        let end = CallCode::End.to_string(rt.alloc())?;
        assert_eq!(rt; end.as_str(), "End");
        Ok(())
    }

    #[test]
    fn whole_batches_are_judged(rt: HostRuntime) {
        assert_eq!(rt; judged::<DockMessage>(&[0, 0, 24, 0]), Ok(()));
        assert_eq!(rt; judged::<DockMessage>(&[0, 0, 24]), Err((3, None)));
        assert_eq!(rt; judged::<DockMessage>(&[0, 0, 25, 0]), Err((3, None)));
        assert_eq!(rt; judged::<DockMessage>(&[1, 0, 24, 0]), Err((3, None)));
    }

    #[test]
    fn what_is_written_is_read(rt: HostRuntime) -> Result<(), Fail> {
        let mut out = [9u8; 60];
        let n = write_batch::<DockMessage>(&[post(244, 1), tick()], &mut out)?;
        assert!(rt; n == 54);
        assert_eq!(rt; out[54], 9);
        assert_eq!(rt; judged::<DockMessage>(&out[0..54]), Ok(()));
        assert_eq!(rt; judged::<Form>(&out[0..54]), Ok(()));
        let mut calls = read_batch::<DockMessage>(&out[0..54])?.calls::<DockMessage>();
        assert_eq!(rt; calls.count(), 2);
        let first = calls.next().ok_or("no call")??.record();
        assert_eq!(rt; first, post(244, 1));
        assert_eq!(rt; calls.next(), Some(Ok(Call::Tick)));
        assert_eq!(rt; calls.next(), None);
        Ok(())
    }

    #[test]
    fn the_first_bad_record_counts(rt: HostRuntime) {
        let mut out = [9u8; 79];
        assert_eq!(rt;
            written::<DockMessage>(
                &[tick(), post(245, 1), CallRecord { code: 19, ..tick() }],
                &mut out,
            ),
            Err((8, Some(1)))
        );
        assert_eq!(rt;
            written::<DockMessage>(
                &[
                    tick(),
                    CallRecord {
                        n2: 1,
                        ..post(245, 1)
                    },
                ],
                &mut out,
            ),
            Err((6, Some(1)))
        );
        assert_eq!(rt; out[0], 9);
    }

    #[test]
    fn a_short_buffer_comes_before_a_bad_row(rt: HostRuntime) {
        let mut out = [9u8; 28];
        assert_eq!(rt;
            written::<DockMessage>(&[post(245, 1)], &mut out),
            Err((4, None))
        );
        assert_eq!(rt; out[27], 9);
    }

    #[test]
    fn too_many_calls_come_first(rt: HostRuntime) -> Result<(), Fail> {
        let records = vec![in rt.alloc(); tick(); 1025]?;
        let mut out = [9u8; 4];
        assert_eq!(rt;
            written::<DockMessage>(records.as_slice(), &mut out),
            Err((3, None))
        );
        assert_eq!(rt; out[0], 9);
        Ok(())
    }
}
