// Source, destination, either, both.
#![tactic(auto, unfolding(crate::specs::Meaning::directed))]

ghost use Rattle.std.specs.Prelude.{◌≡◌};
ghost use Rattle.meaning.specs.Meaning.{directed};

use filter::ast::Dir;

pub fn directed(dir: Dir, source: bool, destination: bool) -> bool
    ensures { result ≡ directed dir source destination }
{
    match dir {
        Dir::SrcOrDst => source || destination,
        Dir::Src => source,
        Dir::Dst => destination,
        Dir::SrcAndDst => source && destination,
    }
}
