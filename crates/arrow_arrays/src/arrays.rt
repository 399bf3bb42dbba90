ghost use Rattle.std.specs.Prelude.{◌≡◌, ◌+◌, ◌++◌, ◌∷◌, ◌==◌, [], ℕ, ◌≤◌, ◌<◌, length, map, slice_get, IsOk, IfOk, IfErr, IfSome, OnOk};
ghost use Rattle.std.specs.Option.{option_copied};
ghost use Rattle.arrow_schema.specs.Limits.{max_fields};
ghost use Rattle.arrow_schema.specs.Readable.{IsReadable};
ghost use Rattle.arrow_schema.specs.Trees.{name_in, kind_in, dict_in, encoding_in, field_count, count_of};
ghost use Rattle.arrow_arrays.specs.Arrays.{array_after, add_field, add_fields, arrays_of, path_within, path_of, arrays_check, HasFault, HasNoFault, cell_of, FitsArray};
ghost use Rattle.arrow_arrays.specs.Views.{cell_seen};
ghost use Rattle.arrow_arrays.specs.Found.{FindsWithin};

use crate::column::ColumnView;
use crate::found::own_column;
use crate::layout::Layout;
use crate::spec::{Above, ArraySpec};
use arrow_buffers::BufferFault;
use arrow_ipc::BatchView;
use arrow_schema::{FieldSpec, MAX_DEPTH, Name, SchemaSpec};
use std::alloc::{AllocError, Global};
use std::marker::Model;

/// The arrays of a schema's fields, depth first: a field comes before its children. The index of
/// an array in the list is that of its node.
#[derive(Debug, Drop)]
pub struct Arrays {
    arrays: Vec<ArraySpec>,
    /// How many buffers they have together.
    buffers: u16,
}

impl Model for Arrays {
    ghost use Rattle.std.specs.Prelude.{List};
    ghost use Rattle.std.specs.Coded.{coded_list};
    ghost use Rattle.arrow_arrays.specs.declared.spec.ArraySpec.{ArraySpec};
    ghost use Rattle.arrow_arrays.specs.contracts.spec.ArraySpec as array;
    ghost use Rattle.arrow_arrays.specs.Inside.{AreArrays};

    ghost Value = { List ArraySpec };

    ghost coded = { coded_list array.the_row.coded };

    ghost view = { λ a. a.arrays.items };

    ghost invariant = { AreArrays };
}

impl Arrays {
    /// The arrays of a schema that was read. It takes time linear in the schema, and copies the
    /// names.
    #[tactic(auto, unfolding(crate::specs::Arrays::arrays_of))]
    pub fn new(alloc: Global, schema: &SchemaSpec) -> Result<Arrays, AllocError>
        requires { IsReadable schema.now }
        ensures { IfOk result (λ arrays. arrays ≡ arrays_of schema.now) }
    {
        let mut arrays = Arrays {
            arrays: Vec::new(alloc),
            buffers: 0,
        };
        arrays.add_fields(alloc, Above::Top, schema.as_slice())?;
        Ok(arrays)
    }

    /// Adds the arrays of fields and of their children after the others.
    #[cycle(walk)]
    fn add_fields(
        &mut self,
        alloc: Global,
        above: Above,
        fields: &[FieldSpec],
    ) -> Result<(), AllocError>
        requires { length self.old + count_of fields.now ≤ max_fields }
        ensures arrays { OnOk result (self.new ≡ add_fields fields.now above self.old) }
        ensures len { OnOk result (length self.new ≡ length self.old + count_of fields.now) }
    {
        for field in fields {
            self.add_field(alloc, above, field)?;
        }
        Ok(())
    }

    #[cycle(walk)]
    fn add_field(
        &mut self,
        alloc: Global,
        above: Above,
        field: &FieldSpec,
    ) -> Result<(), AllocError>
        requires { length self.old + field_count field.now ≤ max_fields }
        ensures arrays { OnOk result (self.new ≡ add_field field.now above self.old) }
        ensures len { OnOk result (length self.new ≡ length self.old + field_count field.now) }
    {
        let below = Above::of_children(field.kind, self.arrays.len());
        self.push(alloc, above, field)?;
        self.add_fields(alloc, below, field.children.as_slice())
    }

    /// Adds the array of one field.
    fn push(&mut self, alloc: Global, above: Above, field: &FieldSpec) -> Result<(), AllocError>
        requires { length self.old < max_fields }
        ensures { OnOk result (self.new ≡ self.old ++ array_after self.old above (name_in field.now) (kind_in field.now) (dict_in field.now) (encoding_in field.now) ∷ []) }
    {
        let array = ArraySpec {
            name: Name::from_str(alloc, field.name.as_str())?,
            kind: field.kind,
            dict: field.dict,
            encoding: field.encoding,
            above,
            node: self.arrays.len() as u16,
            buffer: self.buffers,
        };
        self.arrays.push(array)?;
        self.buffers += Layout::of(field.kind, field.dict).own_buffers() as u16;
        Ok(())
    }

    /// How many arrays there are.
    pub fn len(&self) -> usize
        ensures value { result ≡ length self.now }
        ensures few { result ≤ max_fields }
    {
        self.arrays.len()
    }

    /// Whether there is none.
    pub fn is_empty(&self) -> bool
        ensures { result ≡ (length self.now == 0) }
    {
        self.arrays.is_empty()
    }

    /// All of them.
    pub fn as_slice(&self) -> &[ArraySpec]
        ensures { result.now ≡ self.now }
    {
        &self.arrays
    }

    /// The array at an index of the list; `None` where there is no such array.
    pub fn get(&self, place: usize) -> Option<&ArraySpec>
        ensures { option_copied result ≡ slice_get self.now place }
    {
        self.arrays.get(place)
    }

    /// The names that lead through structs to the array at an index, the outermost first; none
    /// where there is no such array, or it is the child of a list.
    pub fn path(&self, alloc: Global, place: usize) -> Result<Vec<&[u8]>, AllocError>
        ensures { IfOk result (λ path. map (λ name. name.now) path.items ≡ path_of self.now place) }
    {
        let mut path = Vec::new(alloc);
        push_path(&self.arrays, place, MAX_DEPTH, &mut path)?;
        Ok(path)
    }

    /// Whether no array has a fault in the batch; else the first fault, as [`ArrayPlace::check`]
    /// names it. Further nodes and buffers aren't looked at.
    ///
    /// [`ArrayPlace::check`]: crate::ArrayPlace::check
    #[tactic(auto, using(crate::proofs::Checked::none_have_faults, crate::proofs::Checked::first_fault))]
    pub fn check(&self, batch: &BatchView<'_>) -> Result<(), BufferFault>
        ensures exact { result ≡ arrays_check batch.now self.now }
        ensures none { OnOk result (HasNoFault batch.now self.now) }
        ensures fault { IfErr result (HasFault batch.now self.now) }
    {
        check_each(&self.arrays, batch)
    }

    /// The column of the array at an index of the list, in a batch without a fault: null by the
    /// array's own bitmap or by that of a struct above, and where there is no such array. It takes
    /// constant time and no memory.
    pub fn view<'v>(&self, batch: &BatchView<'v>, place: usize) -> ColumnView<'v>
        requires fine { IsOk (arrays_check batch.now self.now) }
        ensures cells { (row : ℕ) → cell_seen result row ≡ cell_of self.now batch.now place row }
        ensures fits { (row : ℕ) → IfSome (cell_seen result row) (FitsArray self.now place) }
    {
        view_within(&self.arrays, batch, place, MAX_DEPTH)
    }

    /// The bytes of a row's cell in the array at an index of the list, in a batch without a fault;
    /// `None` where it is null, or where there is no such row or array. Where more than one cell is
    /// asked for, `view` is found once for all of them.
    pub fn cell<'v>(&self, batch: &BatchView<'v>, place: usize, row: u64) -> Option<&'v [u8]>
        requires fine { IsOk (arrays_check batch.now self.now) }
        ensures cell { option_copied result ≡ cell_of self.now batch.now place row }
        ensures fits { IfSome (option_copied result) (FitsArray self.now place) }
    {
        let column = self.view(batch, place);
        column.cell(row)
    }
}

fn check_each(arrays: &[ArraySpec], batch: &BatchView<'_>) -> Result<(), BufferFault>
    ensures { result ≡ arrays_check batch.now arrays.now }
{
    for array in arrays {
        array.place().check(batch)?;
    }
    Ok(())
}

fn array_at(arrays: &[ArraySpec], place: usize) -> Option<&ArraySpec>
    ensures { option_copied result ≡ slice_get arrays.now place }
{
    arrays.get(place)
}

/// Appends the names that lead to an array at most this deep.
#[tactic(auto, unfolding(crate::specs::Arrays::path_within))]
fn push_path<'a>(
    arrays: &'a [ArraySpec],
    place: usize,
    depth: u32,
    path: &mut Vec<&'a [u8]>,
) -> Result<(), AllocError>
    ensures { OnOk result (map (λ name. name.now) path.new.items ≡ map (λ name. name.now) path.old.items ++ path_within depth arrays.now place) }
{
    if depth == 0 {
        return Ok(());
    }
    let Some(array) = array_at(arrays, place) else {
        return Ok(());
    };
    match array.above {
        Above::Top => {}
        Above::Struct(above) => push_path(arrays, above, depth - 1, path)?,
        Above::List => return Ok(()),
    }
    path.push(array.name.as_slice())?;
    Ok(())
}

/// The column of an array at most this deep.
fn view_within<'v>(
    arrays: &[ArraySpec],
    batch: &BatchView<'v>,
    place: usize,
    depth: u32,
) -> ColumnView<'v>
    requires fine { IsOk (arrays_check batch.now arrays.now) }
    requires deep { depth ≤ 3 }
    ensures { FindsWithin depth arrays.now batch.now place result }
{
    if depth == 0 {
        return ColumnView::empty();
    }
    let Some(array) = array_at(arrays, place) else {
        return ColumnView::empty();
    };
    let own = own_column(batch, array.place());
    match array.above {
        Above::Struct(above) => own.below(view_within(arrays, batch, above, depth - 1)),
        Above::Top | Above::List => own,
    }
}
