//! How the columns of a table stand in an Arrow record batch: by themselves, or as fields of a struct.

/// A column by its index in the table, and the name of its field.
#[derive(Clone, Copy, Debug)]
pub struct GroupMember {
    pub column: u32,
    pub name: &'static str,
}

/// A column by itself, or the columns of a struct by its name.
#[derive(Clone, Copy, Debug)]
pub enum ColumnGroup {
    Alone(GroupMember),
    Under(&'static str, &'static [GroupMember]),
}
