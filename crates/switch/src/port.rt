// Ports and cells: an input's number and an output's number are two types, so that an exchange of them is refused.
ghost use Rattle.std.specs.Prelude.{◌≡◌, ℕ};
ghost use Rattle.switch.specs.Cells.{input, output, cell_of, input_of, output_of, input_limit, output_limit};
ghost use Rattle.switch.specs.Tables.{used_end};

#[derive(Clone, Copy, Debug, PartialEq, Eq)]
pub struct Input(pub u32);

#[derive(Clone, Copy, Debug, PartialEq, Eq)]
pub struct Output(pub u32);

// One end of a flow, an input or an output: what the walks over ports and over a port's flows need to know of it.
pub trait End: Copy {
    // The port of a number. (No `From<u32>`: clauses name its answer.)
    ghost numbered: { ℕ → Self };

    // The cell of the flow between this port and port k of the other side.
    ghost flow: { Self → ℕ → ℕ };

    fn numbered(k: u32) -> Self
        ensures { result ≡ numbered k };

    fn flow(self, k: u32) -> u64
        ensures { result ≡ flow self k };
}

impl End for Input {
    ghost numbered = { input };

    ghost flow = { λ u k. cell_of u (output k) };

    fn numbered(u: u32) -> Input {
        Input(u)
    }

    fn flow(self, k: u32) -> u64 {
        cell(self, Output(k))
    }
}

impl End for Output {
    ghost numbered = { output };

    ghost flow = { λ v k. cell_of (input k) v };

    fn numbered(v: u32) -> Output {
        Output(v)
    }

    fn flow(self, k: u32) -> u64 {
        cell(Input(k), self)
    }
}

// The cell of the flow from `u` to `v`.
pub fn cell(u: Input, v: Output) -> u64
    ensures { result ≡ cell_of u v }
{
    8 * u64::from(u.0) + u64::from(v.0)
}

// The end of an input's used cells, which are the first of its eight.
pub fn used_end(m: u32, n: u32, u: Input) -> u64
    ensures { result ≡ used_end m n u.0 }
{
    let from = 8 * u64::from(u.0);
    if m <= u.0 {
        return from;
    }
    from + u64::from(n.min(8))
}

impl Input {
    // The input of a cell. A number above 63 is an unused cell: its input is 8, which no switch has. (No `Option`: what is promised
    // of this call is an answer to every number.)
    pub fn of(cell: u64) -> Self
        ensures { result ≡ input_of cell }
    {
        if cell < 64 {
            Input((cell / 8) as u32)
        } else {
            Input(8)
        }
    }

    // The number of an input's limit: inputs come first.
    pub fn limit(self) -> u64
        ensures { result ≡ input_limit self }
    {
        let Input(u) = self;
        u64::from(u)
    }
}

impl Output {
    // The output of a cell.
    pub fn of(cell: u64) -> Self
        ensures { result ≡ output_of cell }
    {
        Output((cell % 8) as u32)
    }

    // The number of an output's limit: after the eight inputs'.
    pub fn limit(self) -> u64
        ensures { result ≡ output_limit self }
    {
        let Output(v) = self;
        8 + u64::from(v)
    }
}
