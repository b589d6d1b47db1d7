ghost use Rattle.engine.specs.LayerNumbers.{Layers};

use super::Layer;
use rings::Refusal;

impl TryFrom<u8> for Layer {
    type Error = Refusal;

    ghost try_from_gives = { Layers };

    fn try_from(number: u8) -> Result<Layer, Refusal> {
        if (1..=7).contains(&number) {
            Ok(Layer { number })
        } else {
            Err(Refusal::Layer)
        }
    }
}
