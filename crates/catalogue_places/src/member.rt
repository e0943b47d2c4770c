ghost use Rattle.std.specs.Prelude.{◌≡◌};
ghost use Rattle.catalogue_places.specs.Names.{name_of};

/// The members of a catalogue's objects.
#[derive(Clone, Copy, Debug, PartialEq, Eq, Drop)]
pub enum Member {
    Jobs,
    Id,
    Restartable,
    Elements,
    Kind,
    Next,
    StartLimit,
    AllowStartIfComplete,
    Partitions,
    Batchlet,
    Chunk,
    Transitions,
    Flows,
    Ref,
    ItemCount,
    Reader,
    Processor,
    Writer,
    On,
    To,
    ExitStatus,
    Restart,
}

impl Member {
    /// Returns the name that stands in the text.
    pub fn name(self) -> &'static str
        ensures { result.now ≡ name_of self }
    {
        match self {
            Member::Jobs => "jobs",
            Member::Id => "id",
            Member::Restartable => "restartable",
            Member::Elements => "elements",
            Member::Kind => "kind",
            Member::Next => "next",
            Member::StartLimit => "start-limit",
            Member::AllowStartIfComplete => "allow-start-if-complete",
            Member::Partitions => "partitions",
            Member::Batchlet => "batchlet",
            Member::Chunk => "chunk",
            Member::Transitions => "transitions",
            Member::Flows => "flows",
            Member::Ref => "ref",
            Member::ItemCount => "item-count",
            Member::Reader => "reader",
            Member::Processor => "processor",
            Member::Writer => "writer",
            Member::On => "on",
            Member::To => "to",
            Member::ExitStatus => "exit-status",
            Member::Restart => "restart",
        }
    }
}
