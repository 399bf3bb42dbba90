use arrow_file::{FileRefusal, FileView, FileWriter};
use arrow_ipc::{BatchBuilder, rows_at};
use arrow_schema::SchemaSpec;
use std::alloc::Global;
use std::test::Fail;

/// A file of record batches without columns, of 5 and of 7 rows.
fn file(alloc: Global) -> Result<Vec<u8>, Fail> {
    let mut writer = FileWriter::new(alloc, &SchemaSpec::new(alloc))?;
    writer.add_rows(BatchBuilder::new(alloc, 5))?;
    writer.add_rows(BatchBuilder::new(alloc, 7))?;
    Ok(writer.finish()?)
}

/// How many rows the record batch at a place of a file has.
fn rows(file: &FileView<'_>, place: u32) -> Option<u64> {
    Some(rows_at(file.batch(place)?, 0)?.rows())
}

fn is_bad_magic(opened: &Result<FileView<'_>, FileRefusal>) -> bool {
    matches!(opened, Err(FileRefusal::BadMagic))
}

#[test]
fn what_is_written_is_opened(rt: HostRuntime) -> Result<(), Fail> {
    let bytes = file(rt.alloc())?;
    let file = FileView::open(rt.alloc(), &bytes)?;
    assert_eq!(rt; file.dictionaries(), 0);
    assert_eq!(rt; file.batches(), 2);
    assert_eq!(rt; rows(&file, 0), Some(5));
    assert_eq!(rt; rows(&file, 1), Some(7));
    assert_eq!(rt; rows(&file, 2), None);
    assert_eq!(rt; file.schema(), &bytes[8..8 + file.schema().len()]);
    Ok(())
}

#[test]
fn a_cut_file_has_no_magic(rt: HostRuntime) -> Result<(), Fail> {
    let bytes = file(rt.alloc())?;
    let cut = bytes.get(1..).unwrap_or(&[]);
    assert!(rt; !cut.is_empty());
    assert!(rt; is_bad_magic(&FileView::open(rt.alloc(), cut)));
    assert!(rt; is_bad_magic(&FileView::open(rt.alloc(), &[])));
    Ok(())
}
