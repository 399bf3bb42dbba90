use otap_capture::*;

#[test]
fn reads_events(rt: HostRuntime) {
    assert_eq!(rt; read_event(b"\x0a\x00"), Ok(SendEvent::Request(b"")));
    assert_eq!(rt;
        read_event(b"\x0a\x01\xff\x18\x00"),
        Ok(SendEvent::Request(b"\xff"))
    );
    let status = Status {
        id: 7,
        code: 0,
        message: "",
    };
    assert_eq!(rt;
        read_event(b"\x12\x02\x08\x07"),
        Ok(SendEvent::Status(status))
    );
    for (bytes, refusal) in [
        (b"".as_slice(), BatchRefusal::BadMessage),
        (b"\x1a\x00".as_slice(), BatchRefusal::BadMessage),
        (b"\x08\x00".as_slice(), BatchRefusal::BadMessage),
        (b"\x0a\x00\x12\x00".as_slice(), BatchRefusal::Repeated),
        (b"\x0a\x00\x0a\x00".as_slice(), BatchRefusal::Repeated),
        (b"\x12\x03\x1a\x01\xff".as_slice(), BatchRefusal::BadUtf8),
    ] {
        assert_eq!(rt; read_event(bytes), Err(refusal));
    }
}
