//! The values of an element, one after another in one buffer.

ghost use Rattle.std.specs.Prelude.{◌≡◌, ◌*◌, ◌+◌, ◌^◌, ◌<◌, ◌≤◌, ◌++◌, length, IfOk, take, drop};
ghost use Rattle.std.specs.List.{concat};
ghost use Rattle.map_types.specs.Parts.{zero_parts, AreOfSize, part_size, part_at, field_of, fields_of, values_in, written_own, new_own};
ghost use Rattle.map_types.specs.ValueLen.{round8};
ghost use Rattle.percpu_values.specs.Layout.{parts_of};

use map_types::{Bytes, NoMemory};
use std::alloc::Global;
use std::marker::Model;

/// The values of an element: a part for each CPU, or one part alone. All parts have one size in bytes. Contracts see the
/// list of the parts.
#[derive(Drop)]
pub struct Values {
    parts: u32,
    size: u32,
    bytes: Bytes,
}

impl Model for Values {
    ghost use Rattle.std.specs.Prelude.{◌≡◌, ◌*◌, List, ℕ, length};
    ghost use Rattle.percpu_values.specs.Layout.{parts_of};

    ghost Value = { List (List ℕ) };

    ghost view = { λ v. parts_of v.parts v.size v.bytes };

    ghost invariant = { λ v. length v.bytes ≡ v.parts * v.size };
}

impl Values {
    /// So many parts of a size in bytes, which are all 0.
    pub fn zeroed(alloc: Global, parts: u32, size: u32) -> Result<Values, NoMemory>
        ensures { IfOk result (λ values. values ≡ zero_parts parts size) }
    {
        let len = parts as usize * size as usize;
        Ok(Values {
            parts,
            size,
            bytes: Bytes::zeroed(alloc, len)?,
        })
    }

    /// A part, below the number of parts. So a program on that CPU reads.
    pub fn part(&self, part: u32) -> &[u8]
        requires { part < length self.now }
        ensures bytes { result.now ≡ part_at part self.now }
        // All parts have one size.
        ensures one_size { AreOfSize (part_size self.now) self.now }
    {
        let size = self.size as usize;
        piece(self.bytes.as_slice(), part as usize * size, size)
    }

    /// Copies a part, below the number of parts, to `out`, which has as many bytes.
    pub fn read_own(&self, part: u32, out: &mut [u8])
        requires in_range { part < length self.now }
        requires exact { length out.old ≡ part_size self.now }
        ensures copied { out.new ≡ part_at part self.now }
        // All parts have one size.
        ensures one_size { AreOfSize (part_size self.now) self.now }
    {
        out.copy_from_slice(self.part(part));
    }

    /// Copies all parts to `out`, each to a field of its size rounded up to a multiple of 8 bytes, which `out` just holds.
    /// So the system call reads, after the kernel's `bpf_percpu_hash_copy`. That what is left of a field is 0 is this
    /// project's own rule.
    pub fn read_all(&self, out: &mut [u8])
        requires exact { length out.old ≡ length self.now * round8 (part_size self.now) }
        ensures copied { out.new ≡ fields_of self.now }
        ensures one_size { AreOfSize (part_size self.now) self.now }
    {
        copy_parts(
            out,
            self.parts as usize,
            self.size as usize,
            self.bytes.as_slice(),
        );
    }

    /// Writes one part, below the number of parts, by a value of its size. The other parts stay. So a program on that
    /// CPU writes, as in the kernel's `pcpu_copy_value`.
    pub fn write_own(&mut self, part: u32, value: &[u8])
        requires in_range { part < length self.old }
        requires exact { length value.now ≡ part_size self.old }
        ensures { self.new ≡ written_own part value.now self.old }
    {
        let start = part as usize * self.size as usize;
        self.bytes.write_at(start, value);
    }

    /// Writes all parts, each from the head of its field, which has the size of a part rounded up to a multiple of 8
    /// bytes. So the system call writes, after the kernel's `pcpu_copy_value`. That what is past the part in its field is
    /// not kept is this project's own rule.
    pub fn write_all(&mut self, fields: &[u8])
        requires exact { length fields.now ≡ length self.old * round8 (part_size self.old) }
        ensures { self.new ≡ values_in (length self.old) (part_size self.old) fields.now }
    {
        copy_fields(
            &mut self.bytes,
            self.parts as usize,
            self.size as usize,
            fields,
        );
    }

    /// Writes one part by a value of its size, and zeroes the others. So a program on that CPU fills a new element, as in
    /// the kernel's `pcpu_init_value`.
    pub fn init_own(&mut self, part: u32, value: &[u8])
        requires in_range { part < length self.old }
        requires exact { length value.now ≡ part_size self.old }
        ensures { self.new ≡ new_own (length self.old) part value.now }
    {
        self.bytes.fill_zero();
        self.bytes
            .write_at(part as usize * self.size as usize, value);
    }

    /// Writes all parts as `write_all` does. So the system call fills a new element, after the kernel's
    /// `pcpu_init_value`.
    pub fn init_all(&mut self, fields: &[u8])
        requires exact { length fields.now ≡ length self.old * round8 (part_size self.old) }
        ensures { self.new ≡ values_in (length self.old) (part_size self.old) fields.now }
    {
        self.write_all(fields);
    }
}

/// Copies so many parts of a size, which lie end to end, each to its field.
fn copy_parts(out: &mut [u8], parts: usize, size: usize, bytes: &[u8])
    requires short { size < 2 ^ 32 }
    requires filled { length bytes.now ≡ parts * size }
    requires exact { length out.old ≡ parts * round8 size }
    ensures { out.new ≡ fields_of (parts_of parts size bytes.now) }
{
    let field = size.next_multiple_of(8);
    for part in 0..parts {
        let value = piece(bytes, part * size, size);
        copy_to_field(out, part * field, field, value);
    }
}

/// Copies so many parts of a size, each from the head of its field, to where they lie end to end.
fn copy_fields(bytes: &mut Bytes, parts: usize, size: usize, fields: &[u8])
    requires short { size < 2 ^ 32 }
    requires filled { length bytes.old ≡ parts * size }
    requires exact { length fields.now ≡ parts * round8 size }
    ensures written { bytes.new ≡ concat (values_in parts size fields.now) }
    ensures filled { length bytes.new ≡ parts * size }
{
    let field = size.next_multiple_of(8);
    for part in 0..parts {
        let value = piece(fields, part * field, size);
        bytes.write_at(part * size, value);
    }
}

/// So many bytes from a place on.
fn piece(bytes: &[u8], start: usize, size: usize) -> &[u8]
    requires { start + size ≤ length bytes.now }
    ensures { result.now ≡ take size (drop start bytes.now) }
{
    &bytes[start..start + size]
}

/// Copies a value to the field of so many bytes at a place, and zeroes what is left of the field.
fn copy_to_field(bytes: &mut [u8], start: usize, field: usize, value: &[u8])
    requires inside { start + field ≤ length bytes.old }
    requires rounded { field ≡ round8 (length value.now) }
    ensures { bytes.new
        ≡ take start bytes.old ++ (field_of value.now ++ drop (start + field) bytes.old) }
{
    fill_field(&mut bytes[start..start + field], value);
}

/// Copies a value to the head of its field, and zeroes what is left of the field.
fn fill_field(field: &mut [u8], value: &[u8])
    requires { length field.old ≡ round8 (length value.now) }
    ensures { field.new ≡ field_of value.now }
{
    let (head, rest) = field.split_at_mut(value.len());
    head.copy_from_slice(value);
    rest.fill(0);
}
