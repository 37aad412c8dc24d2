// The marked cases of document 01, "Reckoned by hand", in its order.
ghost use Rattle.std.specs.Prelude.{◌≡◌, map};
ghost use Rattle.cases.specs.Marked.{marked};
ghost use Rattle.cases.specs.Running.{seen};

use crate::{Case, Line, Step};
use benchlog::Entry;
use bus::Reply;
use modules::Which;

// An entry of the log for the module, answered so.
macro_rules! gives {
    ($entry:expr, $number:expr, $value:expr) => {
        Line {
            step: Step::Gives($entry),
            expected: Reply {
                number: $number,
                value: $value,
            },
        }
    };
}

// Bytes for the log reader, which answers so to the number that they begin with.
macro_rules! reads {
    ($bytes:expr, $number:expr, $value:expr) => {
        Line {
            step: Step::Reads($bytes),
            expected: Reply {
                number: $number,
                value: $value,
            },
        }
    };
}

const MARKED: [Case; 9] = [
    // V560 joined, low FFFFFFFF, high 0: a pulse on input 1 gives low 0, high 1.
    Case {
        line: 1,
        which: Which::V560,
        start: &[560, 0b1, 0, 0xFFFFFFFF],
        lines: &[
            gives!(Entry::Pulse(1, 1), 0, 0),
            gives!(Entry::Read(0x14, 32), 0, 0),
            gives!(Entry::Read(0x10, 32), 0, 1),
        ],
        pulses: 1,
    },
    // V260, 4 and 5 joined, channels 3, 4, 5 at FFFFFF, 0, 0: a pulse on 3 gives 0, 1, 0.
    Case {
        line: 2,
        which: Which::V260,
        start: &[260, 0b110000, 0, 0, 0, 0, 0, 0, 0xFFFFFF],
        lines: &[
            gives!(Entry::Pulse(3, 1), 0, 0),
            gives!(Entry::Read(0x1C, 32), 0, 0xFF000000),
            gives!(Entry::Read(0x20, 32), 0, 0xFF000001),
            gives!(Entry::Read(0x24, 32), 0, 0xFF000000),
        ],
        pulses: 1,
    },
    // V260 count 5 reads FF000005, inhibited 7F000005.
    Case {
        line: 3,
        which: Which::V260,
        start: &[260, 0, 0, 0, 0, 5],
        lines: &[
            gives!(Entry::Read(0x10, 32), 0, 0xFF000005),
            gives!(Entry::Veto(true), 0, 0),
            gives!(Entry::Read(0x10, 32), 0, 0x7F000005),
        ],
        pulses: 0,
    },
    // Enable 5, header, GEO 1, counts 7 and 9, first trigger, of source code 0: 0C080001, 00000007, 00000009.
    Case {
        line: 4,
        which: Which::V830,
        start: &[830, 1, 3],
        lines: &[
            gives!(Entry::Write(0x1100, 32, 5), 0, 0),
            gives!(Entry::Write(0x1108, 16, 0x21), 0, 0),
            gives!(Entry::Pulse(0, 7), 0, 0),
            gives!(Entry::Pulse(2, 9), 0, 0),
            gives!(Entry::Write(0x1124, 16, 0), 0, 0),
            gives!(Entry::Read(0, 32), 0, 0x0C080001),
            gives!(Entry::Read(0, 32), 0, 0x00000007),
            gives!(Entry::Read(0, 32), 0, 0x00000009),
        ],
        pulses: 16,
    },
    // Short format, same: 0C080001, 00000007, 10000009.
    Case {
        line: 5,
        which: Which::V830,
        start: &[830, 1, 3],
        lines: &[
            gives!(Entry::Write(0x1100, 32, 5), 0, 0),
            gives!(Entry::Write(0x1108, 16, 0x25), 0, 0),
            gives!(Entry::Pulse(0, 7), 0, 0),
            gives!(Entry::Pulse(2, 9), 0, 0),
            gives!(Entry::Write(0x1124, 16, 0), 0, 0),
            gives!(Entry::Read(0, 32), 0, 0x0C080001),
            gives!(Entry::Read(0, 32), 0, 0x00000007),
            gives!(Entry::Read(0, 32), 0, 0x10000009),
        ],
        pulses: 16,
    },
    // All enabled with header, nothing read: a memory of 65 words takes one event and answers the second trigger 9.
    Case {
        line: 6,
        which: Which::V830,
        start: &[830, 0, 65],
        lines: &[
            gives!(Entry::Write(0x1108, 16, 0x21), 0, 0),
            gives!(Entry::Trigger, 0, 0),
            gives!(Entry::Trigger, 9, 0),
            gives!(Entry::Read(0x1134, 16), 0, 1),
        ],
        pulses: 0,
    },
    // One of 66 takes two.
    Case {
        line: 6,
        which: Which::V830,
        start: &[830, 0, 66],
        lines: &[
            gives!(Entry::Write(0x1108, 16, 0x21), 0, 0),
            gives!(Entry::Trigger, 0, 0),
            gives!(Entry::Trigger, 0, 0),
            gives!(Entry::Read(0x1134, 16), 0, 2),
        ],
        pulses: 0,
    },
    // One word, enable 1, no header, AUTO RESET: 4 pulses, trigger, 3 pulses, trigger (9), 2 pulses. Event 4, live 5,
    // admitted 9.
    Case {
        line: 7,
        which: Which::V830,
        start: &[830, 0, 1],
        lines: &[
            gives!(Entry::Write(0x1100, 32, 1), 0, 0),
            gives!(Entry::Write(0x1108, 16, 0x81), 0, 0),
            gives!(Entry::Pulse(0, 4), 0, 0),
            gives!(Entry::Trigger, 0, 0),
            gives!(Entry::Pulse(0, 3), 0, 0),
            gives!(Entry::Trigger, 9, 0),
            gives!(Entry::Pulse(0, 2), 0, 0),
            gives!(Entry::Read(0, 32), 0, 4),
            gives!(Entry::Read(0x1000, 32), 0, 5),
        ],
        pulses: 9,
    },
    // 300 is AC 02; 2^32 - 1 is FF FF FF FF 0F; 80 00 gives 31. The V830 beside the log reader is asked nothing.
    Case {
        line: 8,
        which: Which::V830,
        start: &[830, 0, 1],
        lines: &[
            reads!([0xAC, 0x02, 0, 0, 0], 0, 300),
            reads!([0xFF, 0xFF, 0xFF, 0xFF, 0x0F], 0, 0xFFFFFFFF),
            reads!([0x80, 0x00, 0, 0, 0], 31, 0),
        ],
        pulses: 0,
    },
];

// The whole list.
pub(crate) fn marked() -> [Case; 9]
    ensures { map seen result ≡ marked }
{
    MARKED
}
