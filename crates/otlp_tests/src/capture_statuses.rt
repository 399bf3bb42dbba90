use otap_capture::*;

#[test]
fn reads_statuses(rt: HostRuntime) {
    let status = Status {
        id: -1,
        code: 10,
        message: "hi",
    };
    let spelled = b"\x08\xff\xff\xff\xff\xff\xff\xff\xff\xff\x01\x10\x0a\x1a\x02hi";
    assert_eq!(rt; read_status(spelled), Ok(status));
    for (bytes, refusal) in [
        (b"\x1a\x01\xff".as_slice(), BatchRefusal::BadUtf8),
        (b"\x10\x00\x10\x00".as_slice(), BatchRefusal::Repeated),
        (b"\x12\x00".as_slice(), BatchRefusal::BadMessage),
    ] {
        assert_eq!(rt; read_status(bytes), Err(refusal));
    }
}
