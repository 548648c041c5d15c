// The types of the board, the engine and the rival, the refusal numbers, and the methods of a setup. The rules are in protocol.
#![tactic(auto)]

ghost use Rattle.std.specs.Prelude.{◌≡◌, ℕ, ◌*◌, ◌<◌};
ghost use Rattle.protocol_types.specs.Board.{within, sizes_in_range, prices_in_range, setup_refusal, fetch_price, write_back_price, most_write_back, Fits, variables, block_of, offset_of, line_of, slots, line_slot, Placed};
ghost use Rattle.protocol_types.specs.Answers.{ended_with};
ghost use Rattle.protocol_types.specs.Refusals.{number, refusal_number, refusal_before};
ghost use Rattle.protocol_types.specs.Conditions.{variable_refusal, named_refusal, request_refusal};

// Why something is refused. Each refusal's number is the documents'.
#[derive(Clone, Copy, PartialEq, Eq)]
pub enum Refusal {
    SetupOutOfRange = 1,
    WrongLength = 2,
    NoSuchProcessor = 3,
    NoSuchVariable = 4,
    TooMany = 5,
    MalformedLine = 6,
    UnknownLabel = 7,
    NoSuchBlock = 8,
    BroadcastWithoutWrite = 9,
    PriceOutOfRange = 10,
    SeedZero = 11,
    NotSearchable = 12,
    UnsoundTables = 20,
    ImpossibleAccount = 21,
    AccountFull = 22,
    LineInUse = 23,
    BlockNotHeld = 24,
    DropOfMarked = 25,
    NoRequestLeft = 26,
    CompletionNotHeld = 27,
    RequestsLeft = 28,
    CacheNotEmpty = 29,
}

impl Refusal {
    pub fn number(self) -> u32
        ensures { result ≡ number self }
    {
        self as u32
    }
}

// The number of what a check answers; 0 where nothing is refused.
pub fn refusal_number(answer: Result<(), Refusal>) -> u32
    ensures { result ≡ refusal_number answer }
{
    match answer {
        Ok(()) => 0,
        Err(refusal) => refusal.number(),
    }
}

// A refusal, and the place that it names.
#[derive(Clone, Copy, PartialEq, Eq)]
pub struct PlacedRefusal {
    pub refusal: Refusal,
    pub place: usize,
}

// The number of what refused a run, a price or a trace; 0 where nothing did.
pub fn placed_number(refused: Option<PlacedRefusal>) -> u32
    ensures { (n : ℕ) → result ≡ (ended_with n refused).refusal }
{
    match refused {
        Some(placed) => placed.refusal.number(),
        None => 0,
    }
}

// The most requests that an account or the pricer takes, and the generator makes.
pub const REQUEST_LIMIT: u32 = 1000000;

// The highest price.
const PRICE_LIMIT: u32 = 32;

// The board: N processors, L lines in each cache, p words in a block, M blocks, and the cycles of a fetch (f) and of a write-back (g).
#[derive(Clone, Copy, PartialEq, Eq)]
pub struct Setup {
    pub processors: u32,
    pub lines: u32,
    pub words: u32,
    pub blocks: u32,
    pub fetch_price: u32,
    pub write_back_price: u32,
}

// A variable's number. No block number can stand for it.
#[derive(Clone, Copy, PartialEq, Eq)]
pub struct Variable(pub u32);

// A block's number.
#[derive(Clone, Copy, PartialEq, Eq)]
pub struct Block(pub u32);

// Whether x is a number from 1 to most.
fn is_within(most: u32, x: u32) -> bool
    ensures { result ≡ within most x }
{
    1 <= x && x <= most
}

impl Setup {
    // Whether condition 1 lets the setup through.
    #[tactic(auto, unfolding(crate::specs::Board::sizes_in_range))]
    fn sizes_in_range(self) -> bool
        ensures { result ≡ sizes_in_range self }
    {
        is_within(8, self.processors)
            && is_within(64, self.lines)
            && is_within(16, self.words)
            && is_within(256, self.blocks)
    }

    // Whether condition 10 lets the setup through.
    #[tactic(auto, unfolding(crate::specs::Board::prices_in_range))]
    fn prices_in_range(self) -> bool
        ensures { result ≡ prices_in_range self }
    {
        is_within(PRICE_LIMIT, self.fetch_price)
            && is_within(self.fetch_price, self.write_back_price)
    }

    // Whether the setup is refused: 1, 10 in this order.
    #[tactic(auto, unfolding(crate::specs::Board::setup_refusal))]
    pub fn check(self) -> Result<(), Refusal>
        ensures { refusal_number result ≡ setup_refusal self }
    {
        if !self.sizes_in_range() {
            return Err(Refusal::SetupOutOfRange);
        }
        if !self.prices_in_range() {
            return Err(Refusal::PriceOutOfRange);
        }
        Ok(())
    }

    // The cycles of a fetch, which is also a full counter.
    #[tactic(auto, unfolding(crate::specs::Board::fetch_price))]
    pub fn fetch_price(self) -> u32
        ensures { result ≡ fetch_price self }
    {
        self.fetch_price
    }

    // The cycles of a write-back.
    #[tactic(auto, unfolding(crate::specs::Board::write_back_price))]
    pub fn write_back_price(self) -> u32
        ensures { result ≡ write_back_price self }
    {
        self.write_back_price
    }

    // The most write-back cycles of one request: every line of a cache is written back.
    #[tactic(auto, unfolding(crate::specs::Board::most_write_back))]
    pub fn most_write_back(self) -> u32
        requires { Fits self }
        ensures { result ≡ most_write_back self }
    {
        self.write_back_price() * self.lines
    }

    // The block in which a variable lies.
    #[tactic(auto, unfolding(crate::specs::Board::block_of))]
    pub fn block_of(self, variable: Variable) -> Block
        requires { Fits self }
        ensures { result ≡ block_of self variable }
    {
        Block(variable.0 / self.words)
    }

    // A variable's offset in its block.
    #[tactic(auto, unfolding(crate::specs::Board::offset_of))]
    pub fn offset_of(self, variable: Variable) -> u32
        requires { Fits self }
        ensures { result ≡ offset_of self variable }
    {
        variable.0 % self.words
    }

    // The only line of a cache in which a block may stand.
    #[tactic(auto, unfolding(crate::specs::Board::line_of))]
    pub fn line_of(self, block: Block) -> u32
        requires { Fits self }
        ensures { result ≡ line_of self block }
    {
        block.0 % self.lines
    }

    // The slot of a line of a processor's cache.
    pub fn line_slot(self, processor: u32, line: u32) -> usize
        requires fits { Fits self }
        requires processor_lt_processors { (processor < self.processors) × (line < self.lines) }
        ensures value { result ≡ line_slot self processor line }
        ensures upper_bound { result < slots self }
    {
        (processor * self.lines + line) as usize
    }

    // The only slot of a processor where a block may stand.
    pub fn slot(self, processor: u32, block: Block) -> usize
        requires fits { Fits self }
        requires processor_lt_processors { processor < self.processors }
        ensures { Placed self processor block result }
    {
        let line = self.line_of(block);
        self.line_slot(processor, line)
    }

    // The slots: one for each line of each cache.
    #[tactic(auto, unfolding(crate::specs::Board::slots))]
    pub fn slot_count(self) -> usize
        requires { Fits self }
        ensures { result ≡ slots self }
    {
        (self.processors * self.lines) as usize
    }

    // The words of all lines.
    pub fn word_count(self) -> usize
        requires { Fits self }
        ensures { result ≡ slots self * self.words }
    {
        self.slot_count() * self.words as usize
    }

    // The variables, which are the words of main memory.
    pub fn variable_count(self) -> u32
        requires { Fits self }
        ensures { result ≡ variables self }
    {
        self.blocks * self.words
    }

    // Whether a variable is refused: 4 if it is not below M × p.
    #[tactic(auto, unfolding(crate::specs::Conditions::variable_refusal))]
    fn check_variable(self, variable: Variable) -> Result<(), Refusal>
        requires { Fits self }
        ensures { (after : ℕ) → refusal_before result after ≡ variable_refusal self variable after }
    {
        if variable.0 >= self.variable_count() {
            return Err(Refusal::NoSuchVariable);
        }
        Ok(())
    }

    // Whether the variable that an operation names is refused.
    pub fn check_named(self, operation: Operation) -> Result<(), Refusal>
        requires { Fits self }
        ensures { (after : ℕ) → refusal_before result after ≡ named_refusal self operation after }
    {
        match operation {
            Operation::Read(v) => self.check_variable(v),
            Operation::Write(v, _) => self.check_variable(v),
            Operation::Clear => Ok(()),
        }
    }

    // Whether a request is refused where `taken` were taken before: 3, 4, 22 in this order.

    #[tactic(auto, unfolding(crate::specs::Conditions::request_refusal))]
    pub fn check_request(self, taken: u32, request: Request) -> Result<(), Refusal>
        requires { Fits self }
        ensures { refusal_number result ≡ request_refusal self taken request }
    {
        if request.processor >= self.processors {
            return Err(Refusal::NoSuchProcessor);
        }
        self.check_named(request.operation)?;
        if taken >= REQUEST_LIMIT {
            return Err(Refusal::AccountFull);
        }
        Ok(())
    }
}

// A clear empties the processor's cache; it names no variable.
#[derive(Clone, Copy, PartialEq, Eq)]
pub enum Operation {
    Read(Variable),
    Write(Variable, u32),
    Clear,
}

// What one processor asks for.
#[derive(Clone, Copy, PartialEq, Eq)]
pub struct Request {
    pub processor: u32,
    pub operation: Operation,
}

// The cycles that an action is charged, by kind.
#[derive(Clone, Copy, PartialEq, Eq)]
pub struct Bill {
    pub fetch: u32,
    pub write_back: u32,
    pub update: u32,
}

// The host's account: requests taken, and the cycles of each kind.
#[derive(Clone, Copy, PartialEq, Eq)]
pub struct Account {
    pub requests: u32,
    pub fetch: u32,
    pub write_back: u32,
    pub update: u32,
}

// What a run answers: the requests taken, and what refused it, if anything did.
#[derive(Clone, Copy, PartialEq, Eq)]
pub struct RunAnswer {
    pub taken: usize,
    pub refused: Option<PlacedRefusal>,
}

// One entry of a rival's schedule: a processor and a block, or the completion of the next request.
#[derive(Clone, Copy, PartialEq, Eq)]
pub enum Entry {
    Fetch(u32, Block),
    WriteBack(u32, Block),
    Drop(u32, Block),
    Complete,
    CompleteByBroadcast,
}

// The best schedule found so far: how many entries it has, its cost, the steps used, whether it is called least, and its cost less half the engine's cycles, that half rounded up.
#[derive(Clone, Copy, PartialEq, Eq)]
pub struct BestSchedule {
    pub length: usize,
    pub cost: u32,
    pub steps: u32,
    pub least: bool,
    pub excess: u32,
}
