// The numbers of enums.rs, and document 01's refusal numbers and stages, as constants of their types. The functions
// `all` prove that they are the numbers that specs/ names, in that order.
#![tactic(auto)]

ghost use Rattle.std.specs.Prelude.{◌≡◌, get_or};
ghost use Rattle.enums.specs.Container as container;
ghost use Rattle.enums.specs.Types as types;
ghost use Rattle.enums.specs.Debug as debug;
ghost use Rattle.enums.specs.Refusals as refusals;
ghost use Rattle.enums.specs.Numbered.{id_of, number_of, stage_number};
ghost use Rattle.enums.specs.Version.{class_of, at_least, since13_3, since13_4};

// The byte that fills alignment padding.
pub const ALIGNMENT_BYTE: u8 = 0xCB;

// The first eight bytes of every file.
pub const MAGIC: [u8; 8] = [0x7F, b'T', b'i', b'l', b'e', b'I', b'R', 0x00];

// Those bytes as an array that a caller can index.
pub fn magic() -> [u8; 8]
    ensures { result ≡ container.magic }
{
    MAGIC
}

// A section that has a payload, in reading order.
#[derive(Clone, Copy, PartialEq, Eq)]
pub enum Section {
    String,
    Producer,
    Type,
    Constant,
    Global,
    Func,
    Debug,
}

// Its id is the low seven bits of the byte that opens it.

impl Section {
    pub const END_OF_BYTECODE: u8 = 0x00;

    pub const STRING: u8 = 0x01;

    pub const FUNC: u8 = 0x02;

    pub const DEBUG: u8 = 0x03;

    pub const CONSTANT: u8 = 0x04;

    pub const TYPE: u8 = 0x05;

    pub const GLOBAL: u8 = 0x06;

    pub const PRODUCER: u8 = 0x07;

    // Every section id.
    pub fn all() -> [u8; 8]
        ensures { result ≡ container.section_ids }
    {
        [
            Section::END_OF_BYTECODE,
            Section::STRING,
            Section::FUNC,
            Section::DEBUG,
            Section::CONSTANT,
            Section::TYPE,
            Section::GLOBAL,
            Section::PRODUCER,
        ]
    }

    // The id of this section.
    pub fn id(self) -> u8
        ensures { result ≡ id_of self }
    {
        match self {
            Section::String => Section::STRING,
            Section::Producer => Section::PRODUCER,
            Section::Type => Section::TYPE,
            Section::Constant => Section::CONSTANT,
            Section::Global => Section::GLOBAL,
            Section::Func => Section::FUNC,
            Section::Debug => Section::DEBUG,
        }
    }
}

// How many section ids there are, the end marker's among them.
pub const NUM_SECTIONS: u8 = 0x08;

// The byte that padding is made of, and the number of section ids, are those of specs/.
pub fn container_named()
    ensures { (ALIGNMENT_BYTE ≡ container.P) × (NUM_SECTIONS ≡ container.num_sections) }
{}

// The bit flags of a function.
#[derive(Clone, Copy)]
pub struct FunctionFlag(pub u8);

impl FunctionFlag {
    pub const VISIBILITY_PRIVATE: u8 = 0x01;

    pub const KIND_KERNEL: u8 = 0x02;

    pub const HAS_OPTIMIZATION_HINTS: u8 = 0x04;

    // Every function flag.
    pub fn all() -> [u8; 3]
        ensures { result ≡ container.function_flags }
    {
        [
            FunctionFlag::VISIBILITY_PRIVATE,
            FunctionFlag::KIND_KERNEL,
            FunctionFlag::HAS_OPTIMIZATION_HINTS,
        ]
    }
}

// The tag that opens a type entry.
#[derive(Clone, Copy)]
pub struct TypeTag(pub u8);

impl TypeTag {
    pub const I1: u8 = 0;

    pub const I8: u8 = 1;

    pub const I16: u8 = 2;

    pub const I32: u8 = 3;

    pub const I64: u8 = 4;

    pub const F16: u8 = 5;

    pub const BF16: u8 = 6;

    pub const F32: u8 = 7;

    pub const TF32: u8 = 8;

    pub const F64: u8 = 9;

    pub const F8E4M3FN: u8 = 10;

    pub const F8E5M2: u8 = 11;

    pub const POINTER: u8 = 12;

    pub const TILE: u8 = 13;

    pub const TENSOR_VIEW: u8 = 14;

    pub const PARTITION_VIEW: u8 = 15;

    pub const FUNC: u8 = 16;

    pub const TOKEN: u8 = 17;

    pub const F8E8M0FNU: u8 = 18;

    pub const F4E2M1FN: u8 = 19;

    pub const GATHER_SCATTER_VIEW: u8 = 20;

    pub const STRIDED_VIEW: u8 = 21;

    pub const I4: u8 = 22;

    pub const F8E5M3FNU: u8 = 0x82;

    // Every type tag.
    pub fn all() -> [u8; 24]
        ensures { result ≡ types.type_tags }
    {
        [
            TypeTag::I1,
            TypeTag::I8,
            TypeTag::I16,
            TypeTag::I32,
            TypeTag::I64,
            TypeTag::F16,
            TypeTag::BF16,
            TypeTag::F32,
            TypeTag::TF32,
            TypeTag::F64,
            TypeTag::F8E4M3FN,
            TypeTag::F8E5M2,
            TypeTag::POINTER,
            TypeTag::TILE,
            TypeTag::TENSOR_VIEW,
            TypeTag::PARTITION_VIEW,
            TypeTag::FUNC,
            TypeTag::TOKEN,
            TypeTag::F8E8M0FNU,
            TypeTag::F4E2M1FN,
            TypeTag::GATHER_SCATTER_VIEW,
            TypeTag::STRIDED_VIEW,
            TypeTag::I4,
            TypeTag::F8E5M3FNU,
        ]
    }
}

// The number of varints behind each debug tag, in the tags' order.
const FIELD_COUNTS: [u64; 7] = [0, 1, 2, 4, 4, 6, 2];

// The tag that opens a debug attribute.
#[derive(Clone, Copy)]
pub struct DebugTag(pub u8);

impl DebugTag {
    pub const UNKNOWN: u8 = 0;

    pub const DI_COMPILE_UNIT: u8 = 1;

    pub const DI_FILE: u8 = 2;

    pub const DI_LEXICAL_BLOCK: u8 = 3;

    pub const DI_LOC: u8 = 4;

    pub const DI_SUBPROGRAM: u8 = 5;

    pub const CALL_SITE: u8 = 6;

    // Every debug tag.
    pub fn all() -> [u8; 7]
        ensures { result ≡ debug.debug_tags }
    {
        [
            DebugTag::UNKNOWN,
            DebugTag::DI_COMPILE_UNIT,
            DebugTag::DI_FILE,
            DebugTag::DI_LEXICAL_BLOCK,
            DebugTag::DI_LOC,
            DebugTag::DI_SUBPROGRAM,
            DebugTag::CALL_SITE,
        ]
    }

    // How many varints stand behind a tag: so many are read and written, and the sheet's other fields are 0. None behind
    // a tag that is not known.
    pub fn field_count(tag: u64) -> u64
        ensures { result ≡ get_or debug.field_counts tag 0 }
    {
        if tag < 7 {
            return FIELD_COUNTS[tag as usize];
        }
        0
    }
}

// Starts counted in ids and starts counted in bytes are two units: a position among the ids of the Debug section ..
#[derive(Clone, Copy)]
pub struct IdPosition(pub usize);

// .. and a position in the data behind a table's starts.
#[derive(Clone, Copy)]
pub struct BytePosition(pub usize);

// Why a call is refused.
#[derive(Clone, Copy, PartialEq, Eq)]
pub enum Refusal {
    Limit,
    Short,
    Overlong,
    Magic,
    Padding,
    Bounds,
    Producer,
    TypeTag,
    DebugTag,
    Hints,
    Full,
    Sheet,
    Start,
    Absent,
    NoSlot,
}

// Document 01's number of each refusal.

impl Refusal {
    pub const LIMIT: u8 = 1;

    pub const SHORT: u8 = 2;

    pub const OVERLONG: u8 = 3;

    pub const MAGIC: u8 = 4;

    pub const PADDING: u8 = 5;

    pub const BOUNDS: u8 = 6;

    pub const PRODUCER: u8 = 7;

    pub const TYPE_TAG: u8 = 8;

    pub const DEBUG_TAG: u8 = 9;

    pub const HINTS: u8 = 10;

    pub const FULL: u8 = 11;

    pub const SHEET: u8 = 12;

    pub const START: u8 = 13;

    pub const ABSENT: u8 = 14;

    pub const NO_SLOT: u8 = 18;

    // Every refusal number.
    pub fn all() -> [u8; 15]
        ensures { result ≡ refusals.refusal_numbers }
    {
        [
            Refusal::LIMIT,
            Refusal::SHORT,
            Refusal::OVERLONG,
            Refusal::MAGIC,
            Refusal::PADDING,
            Refusal::BOUNDS,
            Refusal::PRODUCER,
            Refusal::TYPE_TAG,
            Refusal::DEBUG_TAG,
            Refusal::HINTS,
            Refusal::FULL,
            Refusal::SHEET,
            Refusal::START,
            Refusal::ABSENT,
            Refusal::NO_SLOT,
        ]
    }

    // The number of this refusal.
    pub fn number(self) -> u8
        ensures { result ≡ number_of self }
    {
        match self {
            Refusal::Limit => Refusal::LIMIT,
            Refusal::Short => Refusal::SHORT,
            Refusal::Overlong => Refusal::OVERLONG,
            Refusal::Magic => Refusal::MAGIC,
            Refusal::Padding => Refusal::PADDING,
            Refusal::Bounds => Refusal::BOUNDS,
            Refusal::Producer => Refusal::PRODUCER,
            Refusal::TypeTag => Refusal::TYPE_TAG,
            Refusal::DebugTag => Refusal::DEBUG_TAG,
            Refusal::Hints => Refusal::HINTS,
            Refusal::Full => Refusal::FULL,
            Refusal::Sheet => Refusal::SHEET,
            Refusal::Start => Refusal::START,
            Refusal::Absent => Refusal::ABSENT,
            Refusal::NoSlot => Refusal::NO_SLOT,
        }
    }
}

// The stage at which a call was refused.
#[derive(Clone, Copy, PartialEq, Eq)]
pub enum Stage {
    Limits,
    Header,
    Sections,
    String,
    Producer,
    Type,
    Constant,
    Global,
    Func,
    Debug,
    Call,
}

// Document 01's number of each stage.

impl Stage {
    pub const LIMITS: u8 = 0;

    pub const HEADER: u8 = 1;

    pub const SECTIONS: u8 = 2;

    pub const STRING: u8 = 3;

    pub const PRODUCER: u8 = 4;

    pub const TYPE: u8 = 5;

    pub const CONSTANT: u8 = 6;

    pub const GLOBAL: u8 = 7;

    pub const FUNC: u8 = 8;

    pub const DEBUG: u8 = 9;

    pub const CALL: u8 = 10;

    // Every stage.
    pub fn all() -> [u8; 11]
        ensures { result ≡ refusals.stages }
    {
        [
            Stage::LIMITS,
            Stage::HEADER,
            Stage::SECTIONS,
            Stage::STRING,
            Stage::PRODUCER,
            Stage::TYPE,
            Stage::CONSTANT,
            Stage::GLOBAL,
            Stage::FUNC,
            Stage::DEBUG,
            Stage::CALL,
        ]
    }

    // The number of this stage.
    pub fn number(self) -> u8
        ensures { result ≡ stage_number self }
    {
        match self {
            Stage::Limits => Stage::LIMITS,
            Stage::Header => Stage::HEADER,
            Stage::Sections => Stage::SECTIONS,
            Stage::String => Stage::STRING,
            Stage::Producer => Stage::PRODUCER,
            Stage::Type => Stage::TYPE,
            Stage::Constant => Stage::CONSTANT,
            Stage::Global => Stage::GLOBAL,
            Stage::Func => Stage::FUNC,
            Stage::Debug => Stage::DEBUG,
            Stage::Call => Stage::CALL,
        }
    }
}

// A bytecode version: major.minor.tag.
#[derive(Clone, Copy, PartialEq, Eq, PartialOrd, Ord)]
pub struct BytecodeVersion {
    pub major: u8,
    pub minor: u8,
    pub tag: u16,
}

// The three classes of versions that the layout knows, the earliest first.
#[derive(Clone, Copy, PartialEq, Eq, PartialOrd, Ord)]
pub enum VersionClass {
    Below13_3,
    From13_3,
    From13_4,
}

impl VersionClass {
    // Whether versions of this class are 13.3 or later.
    pub fn from_13_3(self) -> bool
        ensures { result ≡ since13_3 self }
    {
        VersionClass::From13_3 <= self
    }

    // Whether they are 13.4 or later.
    pub fn from_13_4(self) -> bool
        ensures { result ≡ since13_4 self }
    {
        VersionClass::From13_4 <= self
    }
}

impl BytecodeVersion {
    // Whether this version is major.minor or a later one.
    pub fn at_least(self, major: u8, minor: u8) -> bool
        ensures { result ≡ at_least self.major self.minor major minor }
    {
        (major, minor) <= (self.major, self.minor)
    }

    // The class of this version; the tag does not matter, since each class begins at tag 0.
    pub fn class(self) -> VersionClass
        ensures { result ≡ class_of self.major self.minor }
    {
        if self.at_least(13, 4) {
            return VersionClass::From13_4;
        }
        if self.at_least(13, 3) {
            return VersionClass::From13_3;
        }
        VersionClass::Below13_3
    }
}
