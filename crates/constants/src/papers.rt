// The constants by their names, group by group, as specs/Table.antt has them.
ghost use Rattle.std.specs.Prelude.{◌≡◌};
ghost use Rattle.constants.specs.Table.{frames, calls, values, schemas, outputs, kinds, frame_kinds, sides, formats, limits};

use crate::frame_kind::FrameKind;
use crate::kind::Kind;
use crate::refusal::Refusal;
use crate::side::Side;
use crate::{format, limit, refusal};

#[derive(Clone, Copy)]
pub struct FrameNumbers {
    pub accepted: u32,
    pub more: u32,
    pub magic: u32,
    pub version: u32,
    pub kind: u32,
    pub flags: u32,
    pub length: u32,
    pub payload_too_long: u32,
    pub wrong_side: u32,
}

#[derive(Clone, Copy)]
pub struct CallNumbers {
    pub unknown_method: u32,
    pub call_open: u32,
    pub call_not_open: u32,
    pub other_method: u32,
    pub too_many_calls: u32,
    pub not_now: u32,
    pub call_table: u32,
    pub dropped: u32,
    pub too_many_elements: u32,
    pub tally_full: u32,
    pub tally_rows: u32,
}

#[derive(Clone, Copy)]
pub struct ValueNumbers {
    pub cut: u32,
    pub varuint: u32,
    pub bool: u32,
    pub utf8: u32,
    pub repeated_key: u32,
    pub absent_field: u32,
    pub unknown_bit: u32,
    pub surplus: u32,
    pub too_deep: u32,
    pub undue_payload: u32,
    pub sheet_too_short: u32,
    pub map_too_long: u32,
}

#[derive(Clone, Copy)]
pub struct SchemaNumbers {
    pub schema_shape: u32,
    pub too_many_rows: u32,
    pub type_row: u32,
    pub field: u32,
    pub method: u32,
    pub file_too_long: u32,
    pub no_struct: u32,
    pub no_extension: u32,
}

#[derive(Clone, Copy)]
pub struct OutputNumbers {
    pub sheet: u32,
    pub outside: u32,
    pub output_too_short: u32,
    pub list_too_short: u32,
    pub index: u32,
    pub other_record: u32,
}

#[derive(Clone, Copy)]
pub struct TypeKindNumbers {
    pub bool: u32,
    pub int8: u32,
    pub int16: u32,
    pub int32: u32,
    pub int64: u32,
    pub uint8: u32,
    pub uint16: u32,
    pub uint32: u32,
    pub uint64: u32,
    pub float32: u32,
    pub float64: u32,
    pub string: u32,
    pub bytes: u32,
    pub array: u32,
    pub map: u32,
    pub structure: u32,
}

#[derive(Clone, Copy)]
pub struct FrameKindNumbers {
    pub invoke: u8,
    pub in_stream: u8,
    pub in_close: u8,
    pub out_stream: u8,
    pub out_close: u8,
    pub response: u8,
    pub error: u8,
    pub cancel: u8,
}

#[derive(Clone, Copy)]
pub struct SideBytes {
    pub client: u8,
    pub server: u8,
}

#[derive(Clone, Copy)]
pub struct FixedNumbers {
    pub magic: u8,
    pub magic_2: u8,
    pub version: u8,
    pub flags: u8,
    pub header: usize,
    pub layout: u32,
    pub no_type: u32,
    pub row_cells: usize,
}

#[derive(Clone, Copy)]
pub struct LimitNumbers {
    pub payload: usize,
    pub depth: usize,
    pub below_root: usize,
    pub pairs: usize,
    pub struct_fields: u32,
    pub types: usize,
    pub fields: usize,
    pub methods: usize,
    pub forms: u32,
    pub last_form: u32,
    pub file: usize,
    pub sheet: usize,
    pub calls: usize,
    pub elements: u16,
    pub tally: u32,
}

pub fn frames() -> FrameNumbers
    ensures { result ≡ frames }
{
    FrameNumbers {
        accepted: refusal::ACCEPTED,
        more: refusal::MORE,
        magic: Refusal::Magic as u32,
        version: Refusal::Version as u32,
        kind: Refusal::Kind as u32,
        flags: Refusal::Flags as u32,
        length: Refusal::Length as u32,
        payload_too_long: Refusal::PayloadTooLong as u32,
        wrong_side: Refusal::WrongSide as u32,
    }
}

pub fn calls() -> CallNumbers
    ensures { result ≡ calls }
{
    CallNumbers {
        unknown_method: Refusal::UnknownMethod as u32,
        call_open: Refusal::CallOpen as u32,
        call_not_open: Refusal::CallNotOpen as u32,
        other_method: Refusal::OtherMethod as u32,
        too_many_calls: Refusal::TooManyCalls as u32,
        not_now: Refusal::NotNow as u32,
        call_table: Refusal::CallTable as u32,
        dropped: Refusal::Dropped as u32,
        too_many_elements: Refusal::TooManyElements as u32,
        tally_full: Refusal::TallyFull as u32,
        tally_rows: Refusal::TallyRows as u32,
    }
}

pub fn values() -> ValueNumbers
    ensures { result ≡ values }
{
    ValueNumbers {
        cut: Refusal::Cut as u32,
        varuint: Refusal::Varuint as u32,
        bool: Refusal::Bool as u32,
        utf8: Refusal::Utf8 as u32,
        repeated_key: Refusal::RepeatedKey as u32,
        absent_field: Refusal::AbsentField as u32,
        unknown_bit: Refusal::UnknownBit as u32,
        surplus: Refusal::Surplus as u32,
        too_deep: Refusal::TooDeep as u32,
        undue_payload: Refusal::UnduePayload as u32,
        sheet_too_short: Refusal::SheetTooShort as u32,
        map_too_long: Refusal::MapTooLong as u32,
    }
}

pub fn schemas() -> SchemaNumbers
    ensures { result ≡ schemas }
{
    SchemaNumbers {
        schema_shape: Refusal::SchemaShape as u32,
        too_many_rows: Refusal::TooManyRows as u32,
        type_row: Refusal::TypeRow as u32,
        field: Refusal::Field as u32,
        method: Refusal::Method as u32,
        file_too_long: Refusal::FileTooLong as u32,
        no_struct: Refusal::NoStruct as u32,
        no_extension: Refusal::NoExtension as u32,
    }
}

pub fn outputs() -> OutputNumbers
    ensures { result ≡ outputs }
{
    OutputNumbers {
        sheet: Refusal::Sheet as u32,
        outside: Refusal::Outside as u32,
        output_too_short: Refusal::OutputTooShort as u32,
        list_too_short: Refusal::ListTooShort as u32,
        index: Refusal::Index as u32,
        other_record: Refusal::OtherRecord as u32,
    }
}

pub fn kinds() -> TypeKindNumbers
    ensures { result ≡ kinds }
{
    TypeKindNumbers {
        bool: Kind::Bool as u32,
        int8: Kind::Int8 as u32,
        int16: Kind::Int16 as u32,
        int32: Kind::Int32 as u32,
        int64: Kind::Int64 as u32,
        uint8: Kind::Uint8 as u32,
        uint16: Kind::Uint16 as u32,
        uint32: Kind::Uint32 as u32,
        uint64: Kind::Uint64 as u32,
        float32: Kind::Float32 as u32,
        float64: Kind::Float64 as u32,
        string: Kind::String as u32,
        bytes: Kind::Bytes as u32,
        array: Kind::Array as u32,
        map: Kind::Map as u32,
        structure: Kind::Struct as u32,
    }
}

pub fn frame_kinds() -> FrameKindNumbers
    ensures { result ≡ frame_kinds }
{
    FrameKindNumbers {
        invoke: FrameKind::Invoke as u8,
        in_stream: FrameKind::InStream as u8,
        in_close: FrameKind::InClose as u8,
        out_stream: FrameKind::OutStream as u8,
        out_close: FrameKind::OutClose as u8,
        response: FrameKind::Response as u8,
        error: FrameKind::Error as u8,
        cancel: FrameKind::Cancel as u8,
    }
}

pub fn sides() -> SideBytes
    ensures { result ≡ sides }
{
    SideBytes {
        client: Side::Client as u8,
        server: Side::Server as u8,
    }
}

pub fn formats() -> FixedNumbers
    ensures { result ≡ formats }
{
    FixedNumbers {
        magic: format::MAGIC,
        magic_2: format::MAGIC_2,
        version: format::VERSION,
        flags: format::FLAGS,
        header: format::HEADER,
        layout: format::LAYOUT,
        no_type: format::NO_TYPE,
        row_cells: format::ROW_CELLS,
    }
}

pub fn limits() -> LimitNumbers
    ensures { result ≡ limits }
{
    LimitNumbers {
        payload: limit::PAYLOAD,
        depth: limit::DEPTH,
        below_root: limit::BELOW_ROOT,
        pairs: limit::PAIRS,
        struct_fields: limit::STRUCT_FIELDS,
        types: limit::TYPES,
        fields: limit::FIELDS,
        methods: limit::METHODS,
        forms: limit::FORMS,
        last_form: limit::LAST_FORM,
        file: limit::FILE,
        sheet: limit::SHEET,
        calls: limit::CALLS,
        elements: limit::ELEMENTS,
        tally: limit::TALLY,
    }
}
