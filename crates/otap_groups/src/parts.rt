//! The tables of parts: events, links, points and exemplars, below the rows of another table.
ghost use Rattle.std.specs.Prelude.{◌≡◌, ◌++◌, ◌∷◌, [], ◌≤◌, List, length, map, take, All, None, option_map, IfOk, OnOk, OnErr};
ghost use Rattle.otap_cells.specs.declared.payload.Kind.{Kind};
ghost use Rattle.otap_cells.specs.Cells.{Cell};
ghost use Rattle.otap_cells.specs.Continuing.{again_of, goes_on_after};
ghost use Rattle.otap_cells.specs.Columns.{coding_at};
ghost use Rattle.otap_cells.specs.Tables.{profile_table};
ghost use Rattle.otap_groups.specs.Flat.{placed, placed_at};
ghost use Rattle.otap_cells.specs.Ids.{base_of};
ghost use Rattle.otap_cells.specs.Limits.{wide_ids};
ghost use Rattle.otap_groups.specs.Kinds.{IsPart};
ghost use Rattle.otap_groups.specs.Stored.{RisingParts, id_cell, stored_parts};
ghost use Rattle.otap_groups.specs.Views.{seen_placed};

use crate::flat::Placed;
use otap_cells::{Coding, Kind, LogicalTable, coding_of, shared_columns};
use std::alloc::{AllocError, Global};

/// The parts of parents.
pub trait PartsOf {
    type Parent;

    type Part;

    /// The parts of a parent.
    ghost parts: { Self.Parent → List Self.Part };

    fn parts<'a>(&self, parent: &'a Self::Parent) -> &'a [Self::Part]
        ensures { result.now ≡ parts parent.now };
}

/// Writes the rows of parts, whatever they are parts of.
pub trait PartWriter {
    type Part;

    /// The kind of the table.
    ghost kind: { Self → Kind };

    /// The own cells of a part.
    ghost cells_of: { Self.Part → List Cell };

    /// The parts that can be written.
    ghost CanWrite: { Self.Part → Type 0 };

    fn kind(&self) -> Kind
        ensures value { result ≡ kind self.now }
        ensures part { IsPart result };

    /// Whether a part's row continues the run of the row before it.
    fn goes_on(&self, before: &Self::Part, part: &Self::Part) -> bool
        ensures { result ≡ again_of (kind self.now) (cells_of before.now) (cells_of part.now) };

    /// Appends a row: the numbers stored for both ids, and the cells of the part. Where memory runs out, the former rows
    /// come first; whether a row follows them isn't said.
    fn push(
        &self,
        table: &mut LogicalTable,
        id: u32,
        parent: u32,
        part: &Self::Part,
    ) -> Result<(), AllocError>
        requires kind { table.old.kind ≡ kind self.now }
        requires part { CanWrite part.now }
        ensures ok { OnOk result (table.new ≡ record table.old { rows = table.old.rows ++ (id_cell id ∷ id_cell parent ∷ cells_of part.now) ∷ [] }) }
        ensures err { OnErr result (take (length table.old.rows) table.new.rows ≡ table.old.rows) }
        ensures kind { table.new.kind ≡ table.old.kind };
}

/// The parts of some parents in order, each with the place of its parent.
pub fn parts_of<'a, P: PartsOf>(
    alloc: Global,
    below: &P,
    parents: &[Placed<'a, P::Parent>],
) -> Result<Vec<Placed<'a, P::Part>>, AllocError>
    requires few { length parents.now ≤ wide_ids }
    ensures parts { IfOk result (λ found. map seen_placed found.items ≡ placed (map (λ p. P.parts p.part.now) parents.now)) }
    ensures rising { IfOk result (λ found. RisingParts 0 (map seen_placed found.items)) }
{
    let mut found = Vec::with_capacity(alloc, parents.len())?;
    'parents: for place in 0..parents.len() {
        let parent = &parents[place];
        add_parts(&mut found, place as u32, below.parts(parent.part))?;
    }
    Ok(found)
}

fn add_parts<'a, C>(
    found: &mut Vec<Placed<'a, C>>,
    parent: u32,
    parts: &'a [C],
) -> Result<(), AllocError>
    ensures { OnOk result (map seen_placed found.new.items ≡ map seen_placed found.old.items ++ map (placed_at parent) parts.now) }
{
    'parts: for part in parts {
        found.push(Placed { parent, part })?;
    }
    Ok(())
}

/// The table of parts.
pub fn write_parts<W: PartWriter>(
    alloc: Global,
    writer: &W,
    parts: &[Placed<'_, W::Part>],
) -> Result<LogicalTable, AllocError>
    requires rising { RisingParts 0 (map seen_placed parts.now) }
    requires parts { All (λ p. W.CanWrite p.part.now) parts.now }
    ensures { IfOk result (λ table. table ≡ profile_table (W.kind writer.now) (stored_parts (coding_at (W.kind writer.now) 1) (again_of (W.kind writer.now)) W.cells_of 0 0 None (map seen_placed parts.now))) }
{
    let kind = writer.kind();
    let coding = coding_of(kind, shared_columns::part::PARENT_ID);
    let mut table = LogicalTable::for_rows(alloc, kind, parts.len());
    let mut step = 0;
    let mut parent = 0;
    let mut before = None;
    'parts: for placed in parts {
        let base = base(coding, goes_on(writer, before, placed.part), parent);
        writer.push(&mut table, step, placed.parent - base, placed.part)?;
        step = 1;
        parent = placed.parent;
        before = Some(placed.part);
    }
    Ok(table)
}

/// Whether a part's row continues the run of the row before it.
fn goes_on<W: PartWriter>(writer: &W, before: Option<&W::Part>, part: &W::Part) -> bool
    ensures { result ≡ goes_on_after (again_of (W.kind writer.now)) (option_map (λ p. W.cells_of p.now) before.entry) (W.cells_of part.now) }
{
    match before {
        Some(before) => writer.goes_on(before, part),
        None => false,
    }
}

/// What a parent is stored as the distance from.
fn base(how: Coding, continues: bool, before: u32) -> u32
    ensures value { result ≡ base_of how continues before }
    ensures most { result ≤ before }
{
    match how {
        Coding::Plain => 0,
        Coding::Delta => before,
        Coding::Run => { if continues { before } else { 0 } }
    }
}
