// What code and definitions share: the job, the sub-block, the components, the refusals and what is told beside them. An answer is a `Result`: what the
// call gives, or why it is refused. The readings, the paper's numbers and values, stand in specs/.
#![tactic(auto)]

ghost use Rattle.std.specs.Prelude.{◌≡◌};
ghost use Rattle.evc.specs.Answers as reading;
ghost use Rattle.evc.specs.Jobs.{job_of};

// One block job: where its samples start in the buffer, the logarithms of its sides, and its numbers.
#[derive(Clone, Copy)]
pub struct Job {
    pub start: usize,
    pub log2_w: usize,
    pub log2_h: usize,
    pub qp: u8,
    pub offset: i32,
    pub dq_shift: u8,
    pub it_shift: u8,
}

// Every job is made here, so that code names its fields once.
pub fn job_of(
    start: usize,
    log2_w: usize,
    log2_h: usize,
    qp: u8,
    offset: i32,
    dq_shift: u8,
    it_shift: u8,
) -> Job
    ensures { result ≡ job_of start log2_w log2_h qp offset dq_shift it_shift }
{
    Job {
        start: start,
        log2_w: log2_w,
        log2_h: log2_h,
        qp: qp,
        offset: offset,
        dq_shift: dq_shift,
        it_shift: it_shift,
    }
}

// What a component of a sub-block has of its own.
#[derive(Clone, Copy)]
pub struct Part {
    pub start: usize,
    pub qp: u8,
}

// A sub-block call: luma's logarithms, the numbers that all components share, and the components that are flagged.
#[derive(Clone, Copy)]
pub struct SubBlock {
    pub log2_w: usize,
    pub log2_h: usize,
    pub offset: i32,
    pub dq_shift: u8,
    pub it_shift: u8,
    pub y: Option<Part>,
    pub u: Option<Part>,
    pub v: Option<Part>,
}

#[derive(Clone, Copy, Debug, PartialEq, Eq)]
pub enum Component {
    Y,
    U,
    V,
}

// Why a call is refused, in the order of the paper's numbers.
#[derive(Clone, Copy, Debug, PartialEq, Eq)]
pub enum Refusal {
    Size,
    Qp,
    Shift,
    Depth,
    Area,
    Overlap,
    Sample,
}

// Why a sub-block call is refused: the component whose test is broken, and what that test gives.
#[derive(Clone, Copy, Debug, PartialEq, Eq)]
pub struct SubRefusal {
    pub component: Component,
    pub refusal: Refusal,
}

// What a job or a sub-block that is refused tells of it: the component, why, the number that was handed in and the limit that it broke.
#[derive(Clone, Copy, Debug, PartialEq, Eq)]
pub struct Report {
    pub component: Component,
    pub refusal: Refusal,
    pub given: usize,
    pub limit: usize,
}

// A component's number, and a refusal's.
impl From<Component> for u8 {
    ghost from_gives = { λ c n. n ≡ reading.component_number c };

    fn from(c: Component) -> u8 {
        match c {
            Component::Y => 0,
            Component::U => 1,
            Component::V => 2,
        }
    }
}

impl From<Refusal> for u8 {
    ghost from_gives = { λ r n. n ≡ reading.number r };

    fn from(r: Refusal) -> u8 {
        match r {
            Refusal::Size => 1,
            Refusal::Qp => 2,
            Refusal::Shift => 3,
            Refusal::Depth => 4,
            Refusal::Area => 5,
            Refusal::Overlap => 6,
            Refusal::Sample => 7,
        }
    }
}
