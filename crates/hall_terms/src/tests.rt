use crate::{ClientEvent, ClientStage, ClientTime, has_room, most_strangers};

// A client that is let in, doesn't sign in at once, and then takes its time over an answer: what happens, and when it is
// late then, worked by hand.
#[test]
fn a_visit(rt: HostRuntime) {
    let rows = [
        (ClientEvent::Upgraded, 400, 10_400),
        (ClientEvent::Heard(false), 5_000, 10_400),
        (ClientEvent::Waits, 5_001, 10_400),
        (ClientEvent::Taken, 6_000, 10_400),
        (ClientEvent::Heard(true), 7_000, 307_000),
        (ClientEvent::Waits, 8_000, 38_000),
        (ClientEvent::Waits, 20_000, 38_000),
        (ClientEvent::Taken, 21_000, 321_000),
        (ClientEvent::Heard(true), 22_000, 322_000),
    ];
    let mut time = ClientTime::accepted(100);
    assert!(rt; time.late_at() == 10_100);
    for (event, at, late) in rows {
        time = time.after(event, at, 300);
        assert!(rt; time.late_at() == late, "after {event:?} at {at}");
        assert!(rt;
            !time.is_late(late - 1) && time.is_late(late),
            "after {event:?} at {at}"
        );
    }
    assert!(rt; time.stage() == ClientStage::SignedIn);
}

// A page that is taken slowly has thirty seconds, whatever was left of the ten.
#[test]
fn a_page(rt: HostRuntime) {
    let time = ClientTime::accepted(0).after(ClientEvent::Waits, 9_000, 300);
    assert!(rt; time.late_at() == 39_000);
    assert!(rt; time.after(ClientEvent::Taken, 20_000, 300).late_at() == 10_000);
}

#[test]
fn a_tenth_are_strangers(rt: HostRuntime) {
    for (clients, strangers) in [(1, 1), (9, 1), (20, 2), (1_000, 100), (10_000, 1_000)] {
        assert!(rt; most_strangers(clients) == strangers, "{clients}");
        assert!(rt; has_room(clients, clients - 1, strangers - 1));
        assert!(rt; !has_room(clients, clients, 0) && !has_room(clients, 0, strangers));
    }
}
