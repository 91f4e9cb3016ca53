//! That a plant stands for its journal, as each function that has looked at one tells its callers.
ghost use Rattle.std.specs.Prelude.{◌≡◌, ◌<◌, ◌^◌, true, length};
ghost use Rattle.pl_plant.specs.Planted.{Stands};

use pl_plant::Plant;
use pl_tech::Technology;

// The answer. The plant stands for its journal, as ever.
pub(crate) fn told<T: Technology, X>(plant: &Plant<T>, answer: X) -> X
    ensures same { result ≡ answer }
    ensures stands { Stands T.meaning plant.now }
    ensures short { length plant.now.journal < 2 ^ 64 }
{
    let _ = plant.journal().len();
    answer
}

// The answer, after the plant was closed down, for want of memory.
pub(crate) fn told_closed_down<T: Technology, X>(plant: &mut Plant<T>, answer: X) -> X
    ensures same { result ≡ answer }
    ensures stands { Stands T.meaning plant.new }
    ensures journal { plant.new.journal ≡ plant.old.journal }
    ensures home { plant.new.home ≡ plant.old.home }
    ensures closed_down { plant.new.closed_down ≡ true }
{
    plant.close_down();
    told(plant, answer)
}
