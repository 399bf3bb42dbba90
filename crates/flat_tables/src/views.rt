ghost use Rattle.std.specs.Prelude.{◌≡◌, ◌+◌, ◌≤◌, ◌<◌, length, IfOk, IfSome};
ghost use Rattle.std.specs.Int.{w16, w32, w64};
ghost use Rattle.std.specs.Option.{option_copied};
ghost use Rattle.lists.specs.Results.{Gives};
ghost use Rattle.flat_tables.specs.Limits.{max_width};
ghost use Rattle.flat_tables.specs.Tables.{table_at, text_at, vector_at, root_at, place_of, distance_at, element_place, reference_slot, byte_slot, signed_slot, table_slot, text_slot, vector_slot, element_part, element_reference, element_table, or_default};

use crate::fault::FlatFault;
use crate::reading::{i16_at, i32_at, i64_at, part, referred, size_at, u8_at, u32_at, vtable_at};
use byteorder::{ByteOrder, LittleEndian};
use std::marker::Model;

/// The most bytes that an element of a vector takes.
pub const MAX_WIDTH: u32 = 24;

/// A table in bytes, all of whose vtable lies in them. It borrows the bytes, and copies none.
#[derive(Debug, Drop)]
pub struct TableView<'a> {
    bytes: &'a [u8],
    place: usize,
    vtable: usize,
    size: usize,
}

impl<'a> Model for TableView<'a> {
    ghost use Rattle.flat_tables.specs.Tables.{TableIn};

    ghost Value = { TableIn };

    ghost use Rattle.flat_tables.specs.Inside.{table_in, IsTableInside};

    ghost view = { table_in };

    ghost invariant = { IsTableInside };
}

impl<'a> TableView<'a> {
    /// The root table: the first four bytes say how far it is from the start.
    #[tactic(auto, unfolding(crate::specs::Tables::root_at))]
    pub fn root(bytes: &'a [u8]) -> Result<TableView<'a>, FlatFault>
        ensures { result ≡ root_at bytes.now }
    {
        let place = u32_at(bytes, 0)? as usize;
        TableView::at(bytes, place)
    }

    /// The table at an offset.
    #[tactic(auto, unfolding(crate::specs::Tables::table_at))]
    fn at(bytes: &'a [u8], place: usize) -> Result<TableView<'a>, FlatFault>
        ensures { result ≡ table_at bytes.now place }
    {
        let vtable = vtable_at(bytes, place)?;
        let size = size_at(bytes, vtable)?;
        Ok(TableView {
            bytes,
            place,
            vtable,
            size,
        })
    }

    /// How far the value of a slot is from the table's offset; 0 where it is absent.
    #[tactic(auto, unfolding(crate::specs::Tables::distance_at))]
    fn distance(&self, slot: u16) -> u16
        ensures { result ≡ distance_at self.now slot }
    {
        let entry = 4 + 2 * slot as usize;
        if self.size < entry + 2 {
            return 0;
        }
        LittleEndian::read_u16(&self.bytes[self.vtable + entry..])
    }

    /// The offset of the value of a slot, where there is one.
    #[tactic(auto, unfolding(crate::specs::Tables::place_of))]
    fn place_of(&self, slot: u16) -> Option<usize>
        ensures { result ≡ place_of self.now slot }
    {
        let distance = self.distance(slot);
        if distance == 0 {
            return None;
        }
        Some(self.place + distance as usize)
    }

    /// The offset that a slot refers to, where there is one.
    fn reference(&self, slot: u16) -> Result<Option<usize>, FlatFault>
        ensures { result ≡ reference_slot self.now slot }
    {
        match self.place_of(slot) {
            None => Ok(None),
            Some(place) => Ok(Some(referred(self.bytes, place)?)),
        }
    }

    /// The byte of a slot, or the default where it is absent. A bool is a byte that isn't 0.
    pub fn u8_at(&self, slot: u16, default: u8) -> Result<u8, FlatFault>
        ensures { result ≡ or_default default (byte_slot self.now slot) }
    {
        match self.place_of(slot) {
            None => Ok(default),
            Some(place) => u8_at(self.bytes, place),
        }
    }

    /// The 16-bit number of a slot, or the default where it is absent.
    pub fn i16_at(&self, slot: u16, default: i16) -> Result<i16, FlatFault>
        ensures { result ≡ or_default default (signed_slot w16 2 self.now slot) }
    {
        match self.place_of(slot) {
            None => Ok(default),
            Some(place) => i16_at(self.bytes, place),
        }
    }

    /// The 32-bit number of a slot, or the default where it is absent.
    pub fn i32_at(&self, slot: u16, default: i32) -> Result<i32, FlatFault>
        ensures { result ≡ or_default default (signed_slot w32 4 self.now slot) }
    {
        match self.place_of(slot) {
            None => Ok(default),
            Some(place) => i32_at(self.bytes, place),
        }
    }

    /// The 64-bit number of a slot, or the default where it is absent.
    pub fn i64_at(&self, slot: u16, default: i64) -> Result<i64, FlatFault>
        ensures { result ≡ or_default default (signed_slot w64 8 self.now slot) }
    {
        match self.place_of(slot) {
            None => Ok(default),
            Some(place) => i64_at(self.bytes, place),
        }
    }

    /// The table that a slot refers to; `None` where the slot is absent.
    pub fn table_at(&self, slot: u16) -> Result<Option<TableView<'a>>, FlatFault>
        ensures { result ≡ table_slot self.now slot }
    {
        match self.reference(slot)? {
            None => Ok(None),
            Some(place) => Ok(Some(TableView::at(self.bytes, place)?)),
        }
    }

    /// The bytes of the text that a slot refers to; `None` where the slot is absent. They need not
    /// be UTF-8, and the zero byte after them isn't looked at.
    #[tactic(auto, unfolding(crate::specs::Tables::text_at))]
    pub fn text_at(&self, slot: u16) -> Result<Option<&'a [u8]>, FlatFault>
        ensures { Gives option_copied result (text_slot self.now slot) }
    {
        match self.reference(slot)? {
            None => Ok(None),
            Some(place) => {
                let count = u32_at(self.bytes, place)? as usize;
                Ok(Some(part(self.bytes, place + 4, count)?))
            }
        }
    }

    /// The vector that a slot refers to, with elements of `width` bytes; `None` where the slot is
    /// absent.
    #[tactic(auto, unfolding(crate::specs::Tables::vector_at))]
    pub fn vector_at(&self, slot: u16, width: u32) -> Result<Option<VectorView<'a>>, FlatFault>
        requires least { 1 ≤ width }
        requires most { width ≤ max_width }
        ensures value { result ≡ vector_slot width self.now slot }
        ensures width { IfOk result (λ found. IfSome found (λ vector. vector.width ≡ width)) }
    {
        match self.reference(slot)? {
            None => Ok(None),
            Some(place) => Ok(Some(VectorView::at(self.bytes, place, width)?)),
        }
    }
}

/// A vector in bytes, all of whose elements lie in them. It borrows the bytes, and copies none.
#[derive(Debug, Drop)]
pub struct VectorView<'a> {
    bytes: &'a [u8],
    first: usize,
    count: u32,
    width: u32,
}

impl<'a> Model for VectorView<'a> {
    ghost use Rattle.flat_tables.specs.Tables.{VectorIn};

    ghost Value = { VectorIn };

    ghost use Rattle.flat_tables.specs.Inside.{vector_in, IsVectorInside};

    ghost view = { vector_in };

    ghost invariant = { IsVectorInside };
}

impl<'a> VectorView<'a> {
    /// The vector at an offset.
    #[tactic(auto, unfolding(crate::specs::Tables::vector_at))]
    fn at(bytes: &'a [u8], place: usize, width: u32) -> Result<VectorView<'a>, FlatFault>
        requires { width ≤ max_width }
        ensures value { result ≡ vector_at width bytes.now place }
        ensures width { IfOk result (λ vector. vector.width ≡ width) }
    {
        let count = u32_at(bytes, place)?;
        part(bytes, place + 4, count as usize * width as usize)?;
        Ok(VectorView {
            bytes,
            first: place + 4,
            count,
            width,
        })
    }

    /// The number of elements.
    pub fn len(&self) -> u32
        ensures { result ≡ self.now.count }
    {
        self.count
    }

    /// The offset of an element.
    #[tactic(auto, unfolding(crate::specs::Tables::element_place))]
    fn element_place(&self, index: u32) -> Option<usize>
        ensures value { result ≡ element_place self.now index }
        ensures within { IfSome result (λ place. place + self.now.width ≤ length self.now.bytes) }
    {
        if index < self.count {
            Some(self.first + index as usize * self.width as usize)
        } else {
            None
        }
    }

    /// The bytes of an element; `None` where there is no such element.
    #[tactic(auto, unfolding(crate::specs::Tables::element_part))]
    pub fn part(&self, place: u32) -> Option<&'a [u8]>
        ensures value { option_copied result ≡ element_part self.now place }
        ensures size { IfSome result (λ part. length part.now ≡ self.now.width) }
    {
        let start = self.element_place(place)?;
        Some(&self.bytes[start..start + self.width as usize])
    }

    /// The offset that an element refers to, where there is one.
    fn reference(&self, index: u32) -> Result<Option<usize>, FlatFault>
        requires { self.now.width ≡ 4 }
        ensures { result ≡ element_reference self.now index }
    {
        match self.element_place(index) {
            None => Ok(None),
            Some(place) => Ok(Some(referred(self.bytes, place)?)),
        }
    }

    /// The table that an element refers to; `None` where there is no such element.
    pub fn table(&self, place: u32) -> Result<Option<TableView<'a>>, FlatFault>
        requires { self.now.width ≡ 4 }
        ensures { result ≡ element_table self.now place }
    {
        match self.reference(place)? {
            None => Ok(None),
            Some(target) => Ok(Some(TableView::at(self.bytes, target)?)),
        }
    }
}
