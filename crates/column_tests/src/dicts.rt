use otap_dicts::{Form, Ladder};
use std::test::Fail;

/// Observes the numbers from 0 to below `count`, each as its four bytes.
fn observe_numbers(ladder: &mut Ladder, count: u32) -> Result<(), Fail> {
    for number in 0..count {
        ladder.observe(&number.to_le_bytes())?;
    }
    Ok(())
}

#[test]
fn ends_past_its_limits(rt: HostRuntime) -> Result<(), Fail> {
    for (count, form) in [(65_536, Form::Dict16), (65_537, Form::Plain)] {
        let mut ladder = Ladder::new(rt.alloc(), true);
        observe_numbers(&mut ladder, count)?;
        assert_eq!(rt; ladder.form(), form);
    }
    for (size, form) in [(1_048_576, Form::Dict8), (1_048_577, Form::Plain)] {
        let text = vec![in rt.alloc(); 120u8; size]?;
        let mut ladder = Ladder::new(rt.alloc(), true);
        ladder.observe(text.as_slice())?;
        assert_eq!(rt; ladder.form(), form);
    }
    Ok(())
}
