// Rights and access protection groups.
ghost use Rattle.std.specs.Prelude.{◌≡◌, ◌<◌};
ghost use Rattle.std.specs.Option.{ok_or};
ghost use Rattle.calls.specs.declared.fault.Fault.TheVariants.{NoKind};
ghost use Rattle.mmu.specs.Rights.{access_of, kind_of, allows, column_of, ruling_by, ruling_of};

use calls::fault::Fault;
use tlb::control::group_code;
use tlb::register::Kind;

// What is done at an address.
#[derive(Clone, Copy, Debug, PartialEq, Eq)]
pub enum Access {
    Fetch,
    Load,
    Store,
}

// The access of that number.
impl TryFrom<u32> for Access {
    type Error = Fault;

    ghost try_from_gives = { λ n r. r ≡ ok_or (access_of n) (NoKind n) };

    fn try_from(kind: u32) -> Result<Access, Fault> {
        match kind {
            0 => Ok(Access::Fetch),
            1 => Ok(Access::Load),
            2 => Ok(Access::Store),
            _ => Err(Fault::NoKind { kind }),
        }
    }
}

impl Access {
    // The kind that translates it.
    pub fn kind(self) -> Kind
        ensures { result ≡ kind_of self }
    {
        match self {
            Access::Fetch => Kind::Instruction,
            Access::Load | Access::Store => Kind::Data,
        }
    }

    // Its column in the table of rights.
    fn column(self) -> usize
        ensures value { result ≡ column_of self }
        ensures within { result < 3 }
    {
        self as usize
    }
}

// The protection settings of one kind: the group mode and the word of MI_AP or MD_AP.
#[derive(Clone, Copy, Debug, PartialEq, Eq)]
pub struct Protection {
    pub group_mode: bool,
    pub ap: u32,
}

// What a group makes of the test of rights.
#[derive(Clone, Copy, Debug, PartialEq, Eq)]
pub enum Ruling {
    // no access at all
    Refuse,
    // access with no test
    Exempt,
    // a test as problem or as privileged
    Test { problem: bool },
}

// The 48 rights, by extended bit, protection pair, privilege (privileged first) and access (fetch, load, store).
const RIGHTS: [[[[bool; 3]; 2]; 4]; 2] = [
    [
        [[true, true, true], [false, false, false]], // 0, 00
        [[true, true, true], [true, true, false]], // 0, 01
        [[true, true, true], [true, true, true]], // 0, 10
        [[true, true, false], [true, true, false]], // 0, 11
    ],
    [
        [[false, false, false], [false, false, false]], // 1, 00
        [[true, true, false], [false, false, false]], // 1, 01
        [[false, false, false], [false, false, false]], // 1, 10
        [[false, false, false], [false, false, false]], // 1, 11
    ],
];

// Whether a page's rights allow an access.
#[tactic(auto, using(crate::proofs::RightsTable::read_once))]
pub fn allowed(rights: u32, problem: bool, access: Access) -> bool
    ensures { result ≡ allows rights problem access }
{
    let extended = (rights % 2) as usize;
    let pair = (rights / 2 % 4) as usize;
    let key = usize::from(problem);
    RIGHTS[extended][pair][key][access.column()]
}

// What a group's code makes of an access in the group mode.
fn rule(group_mode: bool, code: u32, problem: bool) -> Ruling
    ensures { result ≡ ruling_by group_mode code problem }
{
    match (group_mode, code) {
        (false, 0) => Ruling::Test { problem: false },
        (false, 1) => Ruling::Test { problem },
        (false, 2) => Ruling::Test { problem: !problem },
        (false, _) => Ruling::Test { problem: true },
        (true, 1) => Ruling::Test { problem },
        (true, 3) => Ruling::Exempt,
        (true, _) => Ruling::Refuse,
    }
}

impl Protection {
    // What the settings make of an access to a page of this group.
    #[tactic(auto, unfolding(crate::specs::Rights::ruling_of))]
    pub fn ruling(self, group: u32, problem: bool) -> Ruling
        ensures { result ≡ ruling_of self.group_mode self.ap group problem }
    {
        rule(self.group_mode, group_code(self.ap, group), problem)
    }
}
