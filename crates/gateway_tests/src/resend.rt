ghost use Rattle.std.specs.Prelude.{◌≡◌};
ghost use Rattle.otlp_model.specs.Telemetry.{signal_of};
ghost use Rattle.otlp_model.specs.declared.request.Signal.TheVariants.{Logs};

use otap_capture::Status;
use otap_resend::*;
use otlp_model::{Items, Request, Signal, is_profile};
use std::alloc::Global;
use std::test::Fail;

/// A request without groups.
fn empty(alloc: Global) -> Request
    ensures { signal_of result ≡ Logs }
{
    Request::Logs(Items::new(alloc))
}

fn status(id: i64, code: i32) -> Status<'static> {
    Status {
        id,
        code,
        message: "",
    }
}

#[test]
fn requests_are_kept_and_written_again(rt: HostRuntime) -> Result<(), Fail> {
    let alloc = rt.alloc();
    let request = empty(alloc);
    assert!(rt; is_profile(&request));
    let mut resender = Resender::new(alloc, Signal::Logs, 1)?;
    assert_eq!(rt; resender.sent(), 0);
    assert!(rt; resender.send(request).is_ok());
    assert!(rt; matches!(resender.answer(&status(0, 10)), Answered::Kept(0)));
    resender.reset();
    assert!(rt; matches!(resender.resend(), Ok(Some(_))));
    assert!(rt; matches!(resender.resend(), Ok(None)));
    assert!(rt; matches!(resender.answer(&status(0, 0)), Answered::Done(0)));
    assert!(rt; matches!(resender.answer(&status(0, 0)), Answered::Unknown));
    assert_eq!(rt; resender.unanswered(), 0);
    assert!(rt; !resender.is_broken());
    Ok(())
}
