// The kinds of nodes: which are known, and which may stand under which.
#![tactic(auto)]

ghost use Rattle.std.specs.Prelude.{◌≡◌, is_some, IfSome};
ghost use Rattle.kinds.specs.Kinds.{kind_number, parents_told, parents_of, is_known, may_stand, standing_of};
ghost use Rattle.kinds.specs.Private.{stands_by};

// The sixteen known kinds, by their numbers in a file.
#[derive(Clone, Copy, Debug, PartialEq, Eq)]
pub enum Kind {
    Root = 0x746F6F72,
    Model = 0x6C646F6D,
    Mesh = 0x6873656D,
    BlendShape = 0x68736C62,
    Skeleton = 0x6C656B73,
    Bone = 0x656E6F62,
    IkHandle = 0x64686B69,
    Constraint = 0x74736E63,
    Animation = 0x6D696E61,
    Curve = 0x76727563,
    CurveModeOverride = 0x564F4D43,
    NotificationTrack = 0x6669746E,
    Material = 0x6C74616D,
    File = 0x656C6966,
    Instance = 0x74736E69,
    Metadata = 0x6174656D,
}

// The same numbers, for patterns and tables.
pub const ROOT: u32 = Kind::Root as u32;

pub const MODEL: u32 = Kind::Model as u32;

pub const MESH: u32 = Kind::Mesh as u32;

pub const BLEND_SHAPE: u32 = Kind::BlendShape as u32;

pub const SKELETON: u32 = Kind::Skeleton as u32;

pub const BONE: u32 = Kind::Bone as u32;

pub const IK_HANDLE: u32 = Kind::IkHandle as u32;

pub const CONSTRAINT: u32 = Kind::Constraint as u32;

pub const ANIMATION: u32 = Kind::Animation as u32;

pub const CURVE: u32 = Kind::Curve as u32;

pub const CURVE_MODE_OVERRIDE: u32 = Kind::CurveModeOverride as u32;

pub const NOTIFICATION_TRACK: u32 = Kind::NotificationTrack as u32;

pub const MATERIAL: u32 = Kind::Material as u32;

pub const FILE: u32 = Kind::File as u32;

pub const INSTANCE: u32 = Kind::Instance as u32;

pub const METADATA: u32 = Kind::Metadata as u32;

impl Kind {
    // Its number in a file.
    pub fn number(self) -> u32
        ensures { result ≡ kind_number self }
    {
        self as u32
    }

    // The kind with this number; none has another.
    pub fn of(number: u32) -> Option<Kind>
        ensures known { is_some result ≡ is_known number }
        ensures number { IfSome result (λ kind. kind_number kind ≡ number) }
    {
        match number {
            ROOT => Some(Kind::Root),
            MODEL => Some(Kind::Model),
            MESH => Some(Kind::Mesh),
            BLEND_SHAPE => Some(Kind::BlendShape),
            SKELETON => Some(Kind::Skeleton),
            BONE => Some(Kind::Bone),
            IK_HANDLE => Some(Kind::IkHandle),
            CONSTRAINT => Some(Kind::Constraint),
            ANIMATION => Some(Kind::Animation),
            CURVE => Some(Kind::Curve),
            CURVE_MODE_OVERRIDE => Some(Kind::CurveModeOverride),
            NOTIFICATION_TRACK => Some(Kind::NotificationTrack),
            MATERIAL => Some(Kind::Material),
            FILE => Some(Kind::File),
            INSTANCE => Some(Kind::Instance),
            METADATA => Some(Kind::Metadata),
            _ => None,
        }
    }

    // Where nodes of this kind stand.
    fn parents(self) -> Parents
        ensures { parents_told (Some result) ≡ parents_of (kind_number self) }
    {
        match self {
            Kind::Root => Parents::Top,
            Kind::Model | Kind::Animation | Kind::Instance | Kind::Metadata => {
                Parents::Under(Kind::Root)
            }
            Kind::Mesh | Kind::BlendShape | Kind::Skeleton | Kind::Material => {
                Parents::Under(Kind::Model)
            }
            Kind::Bone | Kind::IkHandle | Kind::Constraint => Parents::Under(Kind::Skeleton),
            Kind::Curve | Kind::CurveModeOverride | Kind::NotificationTrack => {
                Parents::Under(Kind::Animation)
            }
            Kind::File => Parents::UnderEither(Kind::Material, Kind::Instance),
        }
    }
}

// The parents of a kind: none, at the top; one kind; either of two.
#[derive(Clone, Copy, Debug, PartialEq, Eq)]
enum Parents {
    Top,
    Under(Kind),
    UnderEither(Kind, Kind),
}

// The parents of the kind with this number; none are told of an unknown one.
fn parents_of(number: u32) -> Option<Parents>
    ensures { parents_told result ≡ parents_of number }
{
    Kind::of(number).map(Kind::parents)
}

// Whether a kind is one of the sixteen.
pub fn known(kind: u32) -> bool
    ensures { result ≡ is_known kind }
{
    Kind::of(kind).is_some()
}

// Whether a kind with these parents may stand under a parent of this kind, or at the top.
fn stands(parent: Option<u32>, parents: Option<Parents>) -> bool
    ensures { result ≡ stands_by parent (parents_told parents) }
{
    match parents {
        Some(Parents::Top) => parent.is_none(),
        Some(Parents::Under(only)) => parent == Some(only.number()),
        Some(Parents::UnderEither(first, second)) => {
            (parent == Some(first.number())) | (parent == Some(second.number()))
        }
        None => parent.is_some_and(known),
    }
}

// Whether a node of this kind may stand under a parent of the other kind, or at the top where there is none.
pub fn may_stand(parent: Option<u32>, kind: u32) -> bool
    ensures { result ≡ may_stand parent kind }
{
    stands(parent, parents_of(kind))
}

// How a node stands in its place: it may not, or it may, of a known kind or an unknown one.
#[derive(Clone, Copy, Debug, PartialEq, Eq)]
pub enum Standing {
    Barred,
    Known,
    Unknown,
}

// How a node of this kind stands there: both questions by one look at its kind.
pub fn standing_of(parent: Option<u32>, kind: u32) -> Standing
    ensures { result ≡ standing_of parent kind }
{
    let parents = parents_of(kind);
    if !stands(parent, parents) {
        Standing::Barred
    } else if parents.is_some() {
        Standing::Known
    } else {
        Standing::Unknown
    }
}
