use otap_cells::*;

#[test]
fn ids_are_stored_by_their_distances(rt: HostRuntime) {
    let mut ids = [Some(0), Some(1), None, Some(2), Some(5)];
    delta_ids(&mut ids);
    assert_eq!(rt; ids, [Some(0), Some(1), None, Some(1), Some(3)]);
    assert_eq!(rt; undo_delta(&mut ids, 5), Ok(()));
    assert_eq!(rt; ids, [Some(0), Some(1), None, Some(2), Some(5)]);
    let mut past = [Some(65535), Some(1), Some(1)];
    assert_eq!(rt; undo_delta(&mut past, 65535), Err(IdFault::PastType));
    assert_eq!(rt; past, [Some(65535), Some(1), Some(1)]);
    let mut wide = [Some(u32::MAX), Some(0), Some(1)];
    assert_eq!(rt; undo_delta(&mut wide, u32::MAX), Err(IdFault::PastType));
    assert_eq!(rt; wide, [Some(u32::MAX), Some(u32::MAX), Some(1)]);
}

#[test]
fn ids_in_runs_begin_anew(rt: HostRuntime) {
    let runs = [false, true, false, true];
    let mut ids = [0, 2, 2, 3];
    run_ids(&mut ids, &runs);
    assert_eq!(rt; ids, [0, 2, 2, 1]);
    assert_eq!(rt; undo_run(&mut ids, &runs, 3), Ok(()));
    assert_eq!(rt; ids, [0, 2, 2, 3]);
    assert_eq!(rt; undo_run(&mut ids, &runs, 3), Err(IdFault::PastType));
    assert_eq!(rt; ids, [0, 2, 2, 3]);
}
