// What OpenType says of value formats, Coverage, ClassDef, PairPos and MarkBasePos: in specs/ as definitions, and here the forms that these share with code.
#![tactic(auto)]

ghost use Rattle.std.specs.Prelude.{◌≡◌, ◌<◌};
ghost use Rattle.ot_layouts.specs.Values.{field_at};

// A row of the fixed table of a value format's eight low bits: which bit, whether it is a device, and the field's place in a pair answer.
#[derive(Clone, Copy)]
pub struct Field {
    pub mask: u16,
    pub device: bool,
    pub name: usize,
}

// The fixed table of a value format's eight low bits, lowest first: X placement, Y placement, X advance, Y advance, then their four devices.
const FIELDS: [Field; 8] = [
    Field {
        mask: 0x01,
        device: false,
        name: 0,
    },
    Field {
        mask: 0x02,
        device: false,
        name: 1,
    },
    Field {
        mask: 0x04,
        device: false,
        name: 2,
    },
    Field {
        mask: 0x08,
        device: false,
        name: 3,
    },
    Field {
        mask: 0x10,
        device: true,
        name: 4,
    },
    Field {
        mask: 0x20,
        device: true,
        name: 5,
    },
    Field {
        mask: 0x40,
        device: true,
        name: 6,
    },
    Field {
        mask: 0x80,
        device: true,
        name: 7,
    },
];

// Row `j` of the table.
pub fn field_at(j: usize) -> Field
    requires { j < 8 }
    ensures { result ≡ field_at j }
{
    FIELDS[j]
}

// Format 1 of Coverage and of ClassDef is a list, format 2 is ranges.
#[derive(Clone, Copy)]
pub enum Kind {
    List,
    Ranges,
}

// What a readable Coverage or ClassDef is read into: a list or ranges, and how many glyphs or ranges.
#[derive(Clone, Copy)]
pub struct Header {
    pub kind: Kind,
    pub count: usize,
}
