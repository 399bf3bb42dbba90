//! The schema of a record.

ghost use Rattle.std.specs.Prelude.{◌≡◌, ◌<◌, ◌++◌, ◌∷◌, [], map, All, IfOk, OnOk};
ghost use Rattle.arrow_schema.specs.Branches as branches;
ghost use Rattle.arrow_schema.specs.declared.spec.ArrowType.TheVariants as arrow;
ghost use Rattle.otap_cells.specs.Columns.{width_of};
ghost use Rattle.otap_cells.specs.Groups as group;
ghost use Rattle.otap_columns.specs.Schemas.{branches_in, dict_for, encoding_for, encoding_of, is_present, item_in, leaf_in, members_there, schema_for, arrow_type_in};
ghost use Rattle.otap_cells.specs.StaticGroups.{IsWithin, group_in, member_in};
ghost use Rattle.otap_columns.specs.FormsIn.{forms_in};

use crate::forms::ColumnForm;
use arrow_schema::{ArrowType, DictSpec, Encoding, FieldList, FieldSpec, Name, SchemaSpec};
use otap_cells::{Base, Coding, ColumnGroup, GroupMember, Kind, base_of, column_groups};
use std::alloc::{AllocError, Global};

/// The schema of a table whose columns have these forms.
#[tactic(auto, using(crate::proofs::SchemaBuilt::built_more), unfolding(crate::specs::Schemas::schema_for, crate::specs::Schemas::branches_for))]
pub(crate) fn schema_of(
    alloc: Global,
    kind: Kind,
    forms: &[ColumnForm],
) -> Result<SchemaSpec, AllocError>
    ensures { IfOk result (λ schema. schema ≡ schema_for kind (forms_in forms.now)) }
{
    let groups = column_groups(kind);
    let mut schema = SchemaSpec::new(alloc);
    'groups: for group in groups {
        add_group(alloc, &mut schema, kind, forms, group)?;
    }
    Ok(schema)
}

fn add_group(
    alloc: Global,
    schema: &mut SchemaSpec,
    kind: Kind,
    forms: &[ColumnForm],
    group: &ColumnGroup,
) -> Result<(), AllocError>
    requires { IsWithin (width_of kind) group.now }
    ensures { OnOk result (schema.new ≡ schema.old ++ branches.branch_fields (branches_in kind (forms_in forms.now) (group_in group.now))) }
{
    match *group {
        ColumnGroup::Alone(member) => add_member(alloc, schema, kind, forms, &member),
        ColumnGroup::Under(name, members) => add_struct(alloc, schema, kind, forms, name, members),
    }
}

fn add_member(
    alloc: Global,
    schema: &mut SchemaSpec,
    kind: Kind,
    forms: &[ColumnForm],
    member: &GroupMember,
) -> Result<(), AllocError>
    requires { member.now.column < width_of kind }
    ensures { OnOk result (schema.new ≡ schema.old ++ branches.branch_fields (branches_in kind (forms_in forms.now) (group.Alone (member_in member.now)))) }
{
    if !is_present(form_of(forms, member.column)) {
        return Ok(());
    }
    schema.push(leaf_field(alloc, kind, forms, member)?)
}

/// A struct is in the schema where one of its columns is.
fn add_struct(
    alloc: Global,
    schema: &mut SchemaSpec,
    kind: Kind,
    forms: &[ColumnForm],
    name: &str,
    members: &[GroupMember],
) -> Result<(), AllocError>
    requires { All (λ member. member.column < width_of kind) members.now }
    ensures { OnOk result (schema.new ≡ schema.old ++ branches.branch_fields (branches_in kind (forms_in forms.now) (group.Under name.now (map member_in members.now)))) }
{
    let children = leaf_fields(alloc, kind, forms, members)?;
    if children.is_empty() {
        return Ok(());
    }
    schema.push(FieldSpec {
        name: Name::from_str(alloc, name)?,
        kind: ArrowType::Struct,
        dict: None,
        encoding: Encoding::None,
        children,
    })
}

#[tactic(auto, using(crate::proofs::SchemaBuilt::leaves_more))]
fn leaf_fields(
    alloc: Global,
    kind: Kind,
    forms: &[ColumnForm],
    members: &[GroupMember],
) -> Result<FieldList<FieldSpec>, AllocError>
    requires { All (λ member. member.column < width_of kind) members.now }
    ensures { IfOk result (λ fields. fields ≡ map branches.leaf_field (map (leaf_in kind (forms_in forms.now)) (members_there (forms_in forms.now) (map member_in members.now)))) }
{
    let mut fields = FieldList::new(alloc);
    'members: for member in members {
        add_leaf(alloc, &mut fields, kind, forms, member)?;
    }
    Ok(fields)
}

fn add_leaf(
    alloc: Global,
    fields: &mut FieldList<FieldSpec>,
    kind: Kind,
    forms: &[ColumnForm],
    member: &GroupMember,
) -> Result<(), AllocError>
    requires { member.now.column < width_of kind }
    ensures { OnOk result (fields.new ≡ fields.old ++ map branches.leaf_field (map (leaf_in kind (forms_in forms.now)) (members_there (forms_in forms.now) (member_in member.now ∷ [])))) }
{
    if !is_present(form_of(forms, member.column)) {
        return Ok(());
    }
    fields.push(leaf_field(alloc, kind, forms, member)?)
}

fn leaf_field(
    alloc: Global,
    kind: Kind,
    forms: &[ColumnForm],
    member: &GroupMember,
) -> Result<FieldSpec, AllocError>
    requires { member.now.column < width_of kind }
    ensures { IfOk result (λ field. field ≡ branches.leaf_field (leaf_in kind (forms_in forms.now) (member_in member.now))) }
{
    let base = base_of(kind, member.column);
    let form = form_of(forms, member.column);
    let name = Name::from_str(alloc, member.name)?;
    let children = items(alloc, item_of(base))?;
    Ok(FieldSpec {
        name,
        kind: type_of(base, form),
        dict: dict_of(member.column, form),
        encoding: encoding_for(form),
        children,
    })
}

/// The child of a list.
fn items(alloc: Global, item: Option<ArrowType>) -> Result<FieldList<FieldSpec>, AllocError>
    ensures { IfOk result (λ fields. fields ≡ branches.branch_items item) }
{
    match item {
        None => Ok(FieldList::new(alloc)),
        Some(kind) => one_item(alloc, kind),
    }
}

fn one_item(alloc: Global, kind: ArrowType) -> Result<FieldList<FieldSpec>, AllocError>
    ensures { IfOk result (λ fields. fields ≡ branches.branch_items (Some kind)) }
{
    let mut fields = FieldList::new(alloc);
    fields.push(FieldSpec {
        name: Name::from_str(alloc, "item")?,
        kind,
        dict: None,
        encoding: Encoding::None,
        children: FieldList::new(alloc),
    })?;
    Ok(fields)
}

/// The form of a column; one past the end of the list isn't there.
pub(crate) fn form_of(forms: &[ColumnForm], column: u32) -> ColumnForm
    ensures { result ≡ forms_in forms.now column }
{
    match forms.get(column as usize) {
        Some(form) => *form,
        None => ColumnForm::Absent,
    }
}

pub(crate) fn is_present(form: ColumnForm) -> bool
    ensures { result ≡ is_present form }
{
    !matches!(form, ColumnForm::Absent)
}

/// The type of a column's values in its form.
pub(crate) fn type_of(base: Base, form: ColumnForm) -> ArrowType
    ensures { result ≡ arrow_type_in base form }
{
    match base {
        Base::U8 => int(8, false),
        Base::U16 => int(16, false),
        Base::U32 => int(32, false),
        Base::U64 => int(64, false),
        Base::I32 => int(32, true),
        Base::I64 => int(64, true),
        Base::Double => ArrowType::Double,
        Base::Bool => ArrowType::Bool,
        Base::Utf8 => ArrowType::Utf8,
        Base::Binary => ArrowType::Binary,
        Base::Fixed16 => ArrowType::Fixed(16),
        Base::Fixed8 => ArrowType::Fixed(8),
        Base::Timestamp => ArrowType::Timestamp,
        Base::Duration => ArrowType::Duration,
        Base::ListU64 | Base::ListF64 => ArrowType::List,
        Base::Id { .. } => match form {
            ColumnForm::Wide | ColumnForm::Coded(_) => int(32, false),
            _ => int(16, false),
        },
    }
}

fn int(bits: u8, signed: bool) -> ArrowType
    ensures { result ≡ arrow.Int bits signed }
{
    ArrowType::Int { bits, signed }
}

/// The type of the elements of a list.
fn item_of(base: Base) -> Option<ArrowType>
    ensures { result ≡ item_in base }
{
    match base {
        Base::ListU64 => Some(int(64, false)),
        Base::ListF64 => Some(ArrowType::Double),
        _ => None,
    }
}

/// The id of a column's dictionary is the column's index.
fn dict_of(column: u32, form: ColumnForm) -> Option<DictSpec>
    ensures { result ≡ dict_for column form }
{
    match form {
        ColumnForm::Dict8 => Some(DictSpec {
            id: i64::from(column),
            wide: false,
        }),
        ColumnForm::Dict16 => Some(DictSpec {
            id: i64::from(column),
            wide: true,
        }),
        ColumnForm::Absent | ColumnForm::Plain | ColumnForm::Wide | ColumnForm::Coded(_) => None,
    }
}

/// The encoding that the field of a column names, which only that of a coded column does.
fn encoding_for(form: ColumnForm) -> Encoding
    ensures { result ≡ encoding_for form }
{
    match form {
        ColumnForm::Coded(coding) => encoding_of(coding),
        _ => Encoding::None,
    }
}

fn encoding_of(coding: Coding) -> Encoding
    ensures { result ≡ encoding_of coding }
{
    match coding {
        Coding::Plain => Encoding::Plain,
        Coding::Delta => Encoding::Delta,
        Coding::Run => Encoding::Run,
    }
}
